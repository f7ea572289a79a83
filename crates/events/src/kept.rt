//! What is kept over a loss of power: data of driver and train, position, national values and counts.
ghost use Rattle.std.specs.Prelude.{◌≡◌};
ghost use Rattle.events.specs.Nothing.{nothing_kept};

use crate::Position;
use driver::{Datum, DriverIdentity, RunningNumber, TrainData};
use mode_table::TrainLevel;
use national::{CountryValues, National};

/// What outlives a power-up (SUBSET-026, 4.10; what is kept: this project's profile). Identity, running number and
/// train data are never valid after one, so only their values are kept; level and position are kept with the status
/// that they have.
#[derive(Drop)]
pub struct Kept {
    /// The driver's identity that was entered last; None where none was.
    pub identity: Option<DriverIdentity>,
    /// The running number that was entered last; None where none was.
    pub running_number: Option<RunningNumber>,
    /// The train data that were entered last; None where none were.
    pub train_data: Option<TrainData>,
    /// The level, with its status.
    pub level: Datum<TrainLevel>,
    /// Where the train is, after the last balise group that made a fix.
    pub position: Datum<Position>,
    /// The national values in force, with the countries that they are for.
    pub national: CountryValues,
    /// Whether a trip isn't acknowledged yet.
    pub trip_outstanding: bool,
    /// How many events there were, up to the greatest number of 64 bits.
    pub events: u64,
    /// How many power-ups there were, up to the greatest number of 32 bits.
    pub lives: u32,
}

impl Kept {
    /// Before the first event.
    pub fn nothing() -> Kept
        ensures { result ≡ nothing_kept }
    {
        Kept {
            identity: None,
            running_number: None,
            train_data: None,
            level: Datum::Unknown,
            position: Datum::Unknown,
            national: National::new().in_force().copy(),
            trip_outstanding: false,
            events: 0,
            lives: 0,
        }
    }

    /// An equal value.
    pub fn copy(&self) -> Kept
        ensures { result ≡ self.now }
    {
        Kept {
            identity: self.identity,
            running_number: self.running_number,
            train_data: self.train_data,
            level: self.level,
            position: self.position,
            national: self.national.copy(),
            trip_outstanding: self.trip_outstanding,
            events: self.events,
            lives: self.lives,
        }
    }
}
