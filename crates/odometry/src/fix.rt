//! The fix from which the front's place and its uncertainty are reckoned; a life starts with one at 0.
use crate::Sums;
use units::{Cm, Length};

/// A place that a balise group gives (SUBSET-026, 3.6.4; what it makes of the uncertainty: this project's profile).
#[derive(Clone, Copy)]
pub struct Fix {
    /// Where the group lies, in centimetres of the life.
    pub at: Cm,
    /// How far it may lie from there, to either side, in centimetres.
    pub accuracy: Length,
    /// The movements and the path of the life when its balise was read, in centimetres.
    pub sums: Sums,
    /// Whether its balise 1 was missed, which adds 1,200 cm to the uncertainty.
    pub missed: bool,
}

impl Fix {
    ghost use Rattle.std.specs.Prelude.{◌≡◌, ◌+◌, ◌*◌, ◌^◌, ◌≤◌};
    ghost use Rattle.std.specs.Int.RustNames.{unsigned_abs};
    ghost use Rattle.units.specs.Limits.{farthest};
    ghost use Rattle.odometry.specs.Place.{estimate_at, uncertainty_at};

    /// The fix with which a life starts: exactly 0.
    pub(crate) const FIRST: Fix = Fix {
        at: Cm::ZERO,
        accuracy: Length::ZERO,
        sums: Sums::ZERO,
        missed: false,
    };

    /// Where the front was at a moment of the life.
    pub(crate) fn estimate_at(&self, moment: &Sums) -> i64
        ensures value { result ≡ estimate_at self.now moment.now }
        ensures near { unsigned_abs result ≤ unsigned_abs self.now.at + 2 * farthest }
    {
        self.at.get() + moment.movement_from(&self.sums)
    }

    /// How far that may be wrong, to either side, in centimetres.
    pub(crate) fn uncertainty_at(&self, moment: &Sums) -> u64
        ensures value { result ≡ uncertainty_at self.now moment.now }
        ensures near { result ≤ farthest + 2 ^ 37 }
    {
        let growth = moment.path_from(&self.sums).div_ceil(20);
        let missing = if self.missed { 1_200 } else { 0 };
        self.accuracy.get() + 500 + growth + missing
    }
}
