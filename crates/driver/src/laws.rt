//! Laws of the driver's data, the override, the outstanding trip and the revalidation in a life.
ghost use Rattle.driver.specs.LastGiven.{ValueSo, ValidSo, StaysKnown, StaysValid, OverriddenSo};
ghost use Rattle.driver.specs.Laws.{RevalidatedSo, OutstandingSo};
ghost use Rattle.driver.specs.Description.{identity_reported, running_number_reported, train_data_reported, level_reported};

/// A law: what is held of the revalidation is whole exactly where the relation over the life's entries says so.
pub fn revalidated_so()
    ensures { RevalidatedSo }
{}

/// A law: a trip is outstanding exactly where the relation over the life's entries says so.
pub fn outstanding_so()
    ensures { OutstandingSo }
{}

/// A law: the value of each of the driver's data is the last one that was given in the life, or else the one that was
/// kept.
pub fn values_are_the_last_given()
    ensures identity { ValueSo identity_reported }
    ensures running_number { ValueSo running_number_reported }
    ensures train_data { ValueSo train_data_reported }
    ensures level { ValueSo level_reported }
{}

/// A law: each of the driver's data is valid exactly where it was given or confirmed, or valid as the life began, and
/// no mode has made it invalid since.
pub fn valid_so()
    ensures identity { ValidSo identity_reported }
    ensures running_number { ValidSo running_number_reported }
    ensures train_data { ValidSo train_data_reported }
    ensures level { ValidSo level_reported }
{}

/// A law: in a life nothing that is known is lost, and of the data the train's alone are made invalid.
pub fn nothing_known_is_lost()
    ensures identity { StaysKnown identity_reported × StaysValid identity_reported }
    ensures running_number { StaysKnown running_number_reported × StaysValid running_number_reported }
    ensures train_data { StaysKnown train_data_reported }
    ensures level { StaysKnown level_reported × StaysValid level_reported }
{}

/// A law: an override is the last one that was accepted, where no mode has deleted it since.
pub fn overridden_so()
    ensures { OverriddenSo }
{}
