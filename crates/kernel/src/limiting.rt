//! Why the limit is what it is.
ghost use Rattle.kernel.specs.StandsFor.{StandsForLife};
ghost use Rattle.mode_control.specs.Life.{Life};
ghost use Rattle.speed_supervision.specs.Causes.{IsLimitCause};
ghost use Rattle.speed_supervision.specs.Limit.{limit};

use crate::state::StateOver;
use speed_supervision::{LimitCause, limit_cause};
use track_picture::ProfileStores;

impl<T: ProfileStores> StateOver<T> {
    /// What decides the limit that was answered to the last event (SUBSET-026, 3.11 to 3.13 and 4.4; which of those of
    /// equal force is named: this project's profile). Takes no memory, and is worked out where it is asked alone.
    pub fn limit_cause(&self) -> LimitCause
        ensures { (life : Life) → StandsForLife T.stores self.now life → IsLimitCause life (limit life) result }
    {
        limit_cause(&self.supervision)
    }
}
