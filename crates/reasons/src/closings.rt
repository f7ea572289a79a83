//! The balise groups that an event closed.
ghost use Rattle.std.specs.Prelude.{[]};
ghost use Rattle.reasons.specs.Closings.{AreReported};

use mode_table::Mode;
use track_picture::Closings;

/// The balise groups that an event closed, and what became of each (SUBSET-026, 3.4.4 and 3.16.2).
#[derive(Drop)]
pub struct GroupsReport {
    /// The mode in which they were judged: that before the event.
    pub mode: Mode,
    /// The groups, in the order in which they closed.
    pub closings: Closings,
}

impl GroupsReport {
    /// Those of a power-up, which closes none.
    pub(crate) const NONE: GroupsReport = GroupsReport {
        mode: Mode::StandBy,
        closings: Closings::NONE,
    };

    /// No group more, in this mode. A group that isn't there isn't written either.
    pub(crate) fn clear(&mut self, mode: Mode)
        ensures { AreReported mode [] self.new }
    {
        self.mode = mode;
        if self.closings.ended.is_some() {
            self.closings.ended = None;
        }
        if self.closings.whole.is_some() {
            self.closings.whole = None;
        }
    }
}
