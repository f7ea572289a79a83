//! What becomes of the balise groups that an input would close.
ghost use Rattle.std.specs.Prelude.{◌≡◌, IsOk, IfOk};
ghost use Rattle.mode_control.specs.Closings.{closings_by};
ghost use Rattle.mode_control.specs.Life.{Life};
ghost use Rattle.mode_control.specs.StandsFor.{StandsForLife};
ghost use Rattle.track_picture.specs.Closings.{all_of};
ghost use Rattle.track_picture.specs.StandsFor.{size_in};
ghost use Rattle.track_picture.specs.Steps.{HasSpaceFor};

use crate::state::SupervisionOver;
use events::Input;
use std::alloc::Global;
use track_picture::{Closings, ProfileStores};
use units::NoMemory;

impl<T: ProfileStores> SupervisionOver<T> {
    /// What becomes of each balise group that an input would close as the next event, in their order (SUBSET-026, 3.4.4
    /// and 3.16.2). Nothing changes. NoMemory where two groups close and memory is refused for a copy; none is taken
    /// where no restriction and no profile is kept, nor space for one, of an input that uses no packet.
    pub fn closings_by(&self, alloc: Global, input: &Input) -> Result<Closings, NoMemory>
        ensures closings { IfOk result (λ closings. (life : Life) → StandsForLife T.stores self.now life
            → all_of closings ≡ closings_by life input.now) }
        ensures quiet { size_in T.stores self.now.track ≡ 0 → HasSpaceFor T.stores self.now.track input.now
            → IsOk result }
    {
        self.track.closings_by(alloc, self.mode(), input)
    }
}
