//! Why Trip is entered.
ghost use Rattle.std.specs.Prelude.{◌≡◌, false, IsOk, IfOk};
ghost use Rattle.mode_control.specs.History.{mode_of};
ghost use Rattle.mode_control.specs.Life.{Life};
ghost use Rattle.mode_control.specs.StandsFor.{StandsForLife};
ghost use Rattle.mode_control.specs.Tripping.{leads_to_trip, why_trips, row_from, trip_in, trip_by};
ghost use Rattle.track_picture.specs.StandsFor.{size_in};
ghost use Rattle.track_picture.specs.Steps.{HasSpaceFor};

use crate::state::SupervisionOver;
use events::Input;
use mode_table::Mode;
use std::alloc::Global;
use track_picture::ProfileStores;
use units::{NoMemory, Stretch};

/// Why Trip is entered: which row of the mode table leads there, and of rows 3 to 5 the first of their conditions that
/// holds (SUBSET-026, 4.6; the rows: this project's profile).
#[derive(Clone, Copy)]
pub enum TripCause {
    /// Rows 3 to 5: the minimum safe front is above the end of authority, where no speed is allowed (4.6.3, condition
    /// 12).
    EndPassed,
    /// Rows 3 to 5: linking or a balise group asks for a trip in this event (3.4.4, 3.16.2).
    Linking,
    /// Rows 3 to 5: an authority is used in this event whose speed V_MAIN is 0 (3.11.6).
    Stop,
    /// Row 6: the path since Staff Responsible was entered is above D_NVSTFF (4.4).
    StaffDistance,
    /// Row 9: the level is 1 in Unfitted, and the authority or the track ahead isn't known (5.10).
    Level,
}

// Whether a row of the mode table leads from a mode to Trip.
fn leads_to_trip(mode: Mode) -> bool
    ensures { result ≡ leads_to_trip mode }
{
    matches!(
        mode,
        Mode::FullSupervision | Mode::OnSight | Mode::StaffResponsible | Mode::Unfitted
    )
}

impl<T: ProfileStores> SupervisionOver<T> {
    // Of rows 3 to 5.
    fn why_trips(&self, train: &Stretch) -> TripCause
        ensures { (life : Life) → StandsForLife T.stores self.now life → result ≡ why_trips life train.now }
    {
        if self.is_beyond_end(train) {
            TripCause::EndPassed
        } else if self.track.happened().requested.trip {
            TripCause::Linking
        } else {
            TripCause::Stop
        }
    }

    // The row to Trip from the mode.
    fn row_from(&self, train: &Stretch) -> TripCause
        ensures { (life : Life) → StandsForLife T.stores self.now life → result ≡ row_from (mode_of life.entries) life train.now }
    {
        match self.parts.mode {
            Mode::Unfitted => TripCause::Level,
            Mode::StaffResponsible => {
                if self.trips(train) {
                    self.why_trips(train)
                } else {
                    TripCause::StaffDistance
                }
            }
            _ => self.why_trips(train),
        }
    }

    // Why Trip is entered, if it is, where the train is there.
    fn trip_in(&self, train: &Stretch) -> Option<TripCause>
        ensures { (life : Life) → StandsForLife T.stores self.now life → result ≡ trip_in life train.now }
    {
        match self.entered(train) {
            Some(Mode::Trip) => Some(self.row_from(train)),
            _ => None,
        }
    }

    /// Why an input would enter Trip, as the next event; None where it wouldn't. It works on a copy: NoMemory where
    /// memory is refused for that, or for what the input adds. None is taken in a mode from which no row leads to Trip;
    /// nor where no restriction and no profile is kept, nor space for one, of an input that uses no packet.
    pub fn trip_by(&self, alloc: Global, input: &Input) -> Result<Option<TripCause>, NoMemory>
        ensures cause { IfOk result (λ cause. (life : Life) → StandsForLife T.stores self.now life
            → cause ≡ trip_by life input.now) }
        ensures rowless { leads_to_trip self.now.parts.mode ≡ false → IsOk result }
        ensures quiet { size_in T.stores self.now.track ≡ 0 → HasSpaceFor T.stores self.now.track input.now
            → IsOk result }
    {
        if !leads_to_trip(self.mode()) {
            return Ok(None);
        }
        let mut next = self.copy(alloc)?;
        next.begin(input)?;
        let seen = next.see();
        Ok(next.trip_in(&seen.train))
    }
}
