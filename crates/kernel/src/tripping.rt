//! Why Trip is entered.
ghost use Rattle.std.specs.Prelude.{◌≡◌, false, IsOk, IfOk};
ghost use Rattle.events.specs.declared.input.Event.TheVariants as event;
ghost use Rattle.kernel.specs.Quiet.{HasSpaceFor, HasNoTrack};
ghost use Rattle.kernel.specs.StandsFor.{StandsForLife};
ghost use Rattle.mode_control.specs.History.{mode_of};
ghost use Rattle.mode_control.specs.Life.{Life};
ghost use Rattle.mode_control.specs.Tripping.{trip_by, leads_to_trip};

use crate::state::StateOver;
use events::Input;
use mode_control::TripCause;
use std::alloc::Global;
use track_picture::ProfileStores;
use units::NoMemory;

impl<T: ProfileStores> StateOver<T> {
    /// Why an input would enter Trip as the next event: the row of the mode table that leads there (SUBSET-026, 4.6;
    /// the rows: this project's profile); None where it wouldn't. It works on a copy, and is worked out where it is
    /// asked alone: NoMemory where memory is refused for that. None is taken in a mode from which no row leads to Trip;
    /// nor where no restriction and no profile is kept, nor space for one, of an input that uses no packet.
    pub fn trip_by(&self, alloc: Global, input: &Input) -> Result<Option<TripCause>, NoMemory>
        ensures cause { IfOk result (λ cause. (life : Life) → StandsForLife T.stores self.now life
            → cause ≡ trip_by life input.now) }
        ensures rowless { (life : Life) → StandsForLife T.stores self.now life
            → leads_to_trip (mode_of life.entries) ≡ false → IsOk result }
        ensures quiet { HasNoTrack T.stores self.now → HasSpaceFor T.stores self.now (event.Input input.now)
            → IsOk result }
    {
        Ok(self.supervision.trip_by(alloc, input)?)
    }
}
