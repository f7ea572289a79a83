//! What the track sent, and where the train is.
ghost use Rattle.kernel.specs.StandsFor.{StandsForLife};
ghost use Rattle.mode_control.specs.Life.{Life, track_of};
ghost use Rattle.track_picture.specs.StandsFor.{StandsForLife as StandsForTrack};

use crate::state::StateOver;
use track_picture::{ProfileStores, TracksideOver};

impl<T: ProfileStores> StateOver<T> {
    /// What the track sent to the train and where the train is, after the last event.
    pub fn track(&self) -> &TracksideOver<T>
        ensures { (life : Life) → StandsForLife T.stores self.now life
            → StandsForTrack T.stores result.now (track_of life) }
    {
        self.supervision.track()
    }
}
