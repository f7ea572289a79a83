//! What becomes of the bytes that a balise sends, apart from the groups that they close.
ghost use Rattle.kernel.specs.StandsFor.{StandsForLife};
ghost use Rattle.mode_control.specs.History.{tracks};
ghost use Rattle.mode_control.specs.Life.{Life};
ghost use Rattle.track_picture.specs.Hearing.{IsHeardSo};

use crate::state::StateOver;
use track_picture::{ProfileStores, TelegramOutcome};

impl<T: ProfileStores> StateOver<T> {
    /// What would become of these bytes of a balise as the next event: they carry no telegram, or one that counts in its
    /// group or doesn't (SUBSET-026, 3.4 and 8.4.2). Nothing changes, and no memory is taken.
    pub fn outcome_of(&self, bytes: &[u8]) -> TelegramOutcome
        ensures { (life : Life) → StandsForLife T.stores self.now life → IsHeardSo (tracks life.entries) bytes.now result }
    {
        self.supervision.track().outcome_of(bytes)
    }
}
