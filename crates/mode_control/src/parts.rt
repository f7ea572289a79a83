//! The driver's data, the mode and the acknowledgements, as a life begins.
ghost use Rattle.std.specs.Prelude.{◌≡◌, []};
ghost use Rattle.driver.specs.Known.{powered_up};
ghost use Rattle.mode_table.specs.declared.statuses.Cold.{Cold as ColdValue};
ghost use Rattle.mode_control.specs.Life.{entered, known_before, length_by};
ghost use Rattle.mode_control.specs.StandsFor.{parts_of};

use areas::Acknowledgement;
use driver::{Action, Datum, Driver, Kept as DriverKept, TrainData};
use events::Kept;
use mode_table::{Cold, Mode};
use std::marker::Model;
use units::Length;

/// What is known along with what the track sent.
#[derive(Clone, Copy)]
pub struct Parts {
    /// What the driver entered.
    pub driver: Driver,
    /// The mode.
    pub mode: Mode,
    /// The path of the life when Staff Responsible was entered last, in centimetres.
    pub staff_from: Length,
    /// The acknowledgement of On Sight.
    pub on_sight: Acknowledgement,
    /// That of Shunting.
    pub shunting: Acknowledgement,
    /// That of level 0.
    pub level_0: Acknowledgement,
    /// The action that was accepted in the last event.
    pub done: Option<Action>,
}

impl Model for Parts {
    ghost use Rattle.mode_control.specs.StandsFor.{KnownModes};

    ghost Value = { KnownModes };

    ghost view = { λ p. record {
      driver = p.driver;
      mode = p.mode;
      staff_from = p.staff_from;
      on_sight = p.on_sight;
      shunting = p.shunting;
      level_0 = p.level_0;
      done = p.done;
    } };

    ghost inverse = { λ k. record {
      driver = k.driver;
      mode = k.mode;
      staff_from = k.staff_from;
      on_sight = k.on_sight;
      shunting = k.shunting;
      level_0 = k.level_0;
      done = k.done;
    } };
}

// What was entered last, as it was entered.
fn entered<T: Copy>(kept: &Option<T>) -> Datum<T>
    ensures { result ≡ entered kept.now }
{
    match kept {
        None => Datum::Unknown,
        Some(value) => Datum::Valid(*value),
    }
}

// What was known of the driver's data before a power-up.
fn known_before(kept: &Kept) -> DriverKept
    ensures { result ≡ known_before kept.now }
{
    DriverKept {
        identity: entered(&kept.identity),
        running_number: entered(&kept.running_number),
        train_data: entered(&kept.train_data),
        level: kept.level,
        trip_outstanding: kept.trip_outstanding,
    }
}

// The length of a train; 0 where its data aren't valid.
fn length_by(train: &Datum<TrainData>) -> Length
    ensures { result ≡ length_by train.now }
{
    match train {
        Datum::Valid(train) => train.length(),
        Datum::Unknown | Datum::Invalid(_) => Length::ZERO,
    }
}

impl Parts {
    /// What is known as a life begins with what was kept.
    // It stands out of line, so that the state around it is laid into its place at once.
    #[inline(never)]
    pub fn new(kept: &Kept, cold: Cold) -> Self
        ensures { result ≡ parts_of (record { kept = kept.now; cold = cold; entries = [] }) }
    {
        Parts {
            driver: Driver::new(&known_before(kept).powered_up(cold)),
            mode: Mode::StandBy,
            staff_from: Length::ZERO,
            on_sight: Acknowledgement::new(),
            shunting: Acknowledgement::new(),
            level_0: Acknowledgement::new(),
            done: None,
        }
    }

    /// The length of the train, in centimetres; 0 where its data aren't valid.
    pub fn length(&self) -> Length
        ensures { result ≡ length_by self.now.driver.train_data }
    {
        length_by(&self.driver.train_data())
    }
}
