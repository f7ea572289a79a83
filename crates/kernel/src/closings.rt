//! What becomes of the balise groups that an event would close.
ghost use Rattle.std.specs.Prelude.{◌≡◌, IsOk, IfOk};
ghost use Rattle.kernel.specs.Closings.{closings_after};
ghost use Rattle.kernel.specs.Lives.{Past};
ghost use Rattle.kernel.specs.Quiet.{HasSpaceFor, HasNoTrack};
ghost use Rattle.kernel.specs.StandsFor.{StandsAt};
ghost use Rattle.track_picture.specs.Closings.{all_of};

use crate::state::StateOver;
use events::Event;
use std::alloc::Global;
use track_picture::{Closings, ProfileStores};
use units::NoMemory;

impl<T: ProfileStores> StateOver<T> {
    /// What becomes of each balise group that an event would close as the next one, in their order: at most two, and
    /// none by a power-up (SUBSET-026, 3.4.4 and 3.16.2). Nothing changes. It is worked out where it is asked alone:
    /// NoMemory where two groups close and memory is refused for a copy. None is taken where no restriction and no
    /// profile is kept, nor space for one, of an event that uses no packet.
    pub fn closings_by(&self, alloc: Global, event: &Event) -> Result<Closings, NoMemory>
        ensures closings { IfOk result (λ closings. (past : Past) → StandsAt T.stores self.now past
            → all_of closings ≡ closings_after past event.now) }
        ensures quiet { HasNoTrack T.stores self.now → HasSpaceFor T.stores self.now event.now → IsOk result }
    {
        match event {
            Event::PowerUp(_) => Ok(Closings::NONE),
            Event::Input(input) => self.supervision.closings_by(alloc, input),
        }
    }
}
