//! Laws of every list of events.
ghost use Rattle.kernel.specs.Causes.{EmergencyHasCause, ServiceHasCause, NoneHasNoCause};
ghost use Rattle.kernel.specs.Laws.{CountsSo, IdentitySo, RunningNumberSo, TrainDataSo, LevelSo, TripSo, PositionSo, NationalSo, Forgets, BrakesUntilRevalidated, TripBrakes};
ghost use Rattle.kernel.specs.Trips.{TripsHaveCauses};

/// A law: what is kept of a list of events is what the whole list says, item by item.
pub fn kept_is_the_last()
    ensures counts { CountsSo }
    ensures identity { IdentitySo }
    ensures running_number { RunningNumberSo }
    ensures train_data { TrainDataSo }
    ensures level { LevelSo }
    ensures trip { TripSo }
    ensures position { PositionSo }
    ensures national { NationalSo }
{}

/// A law: nothing but what is kept crosses a power-up.
pub fn power_up_forgets()
    ensures { Forgets }
{}

/// A law: the emergency brake is commanded while the driver hasn't revalidated since the power-up.
pub fn brakes_until_revalidated()
    ensures { BrakesUntilRevalidated }
{}

/// A law: the emergency brake is commanded in Trip and in System Failure.
pub fn trip_brakes()
    ensures { TripBrakes }
{}

/// A law: the emergency brake is commanded exactly where one of its causes holds, the service brake exactly where one of
/// its causes holds and none of the emergency brake's, and none exactly where no cause holds.
pub fn causes_command()
    ensures emergency { EmergencyHasCause }
    ensures service { ServiceHasCause }
    ensures none { NoneHasNoCause }
{}

/// A law: an event has a cause of a trip exactly where the mode after it is Trip, and that before it wasn't.
pub fn trips_have_causes()
    ensures { TripsHaveCauses }
{}
