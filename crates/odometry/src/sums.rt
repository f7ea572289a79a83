//! How far a life has moved, forward less backward, and its path, forward plus backward.
ghost use Rattle.std.specs.Prelude.{◌≡◌, ◌↔◌, ◌+◌, ◌*◌, ◌≤◌, IsSome, IfSome};
ghost use Rattle.std.specs.Int.RustNames.{unsigned_abs};
ghost use Rattle.units.specs.Limits.{farthest};
ghost use Rattle.odometry.specs.Sums.{moved_on, movement_between, path_between};

use std::marker::Model;
use units::{Cm, FARTHEST, Length, Movement};

/// The sums of a life at one moment, in centimetres: of its movements, and of their absolute values, which is its path
/// (this project's profile).
#[derive(Clone, Copy)]
pub struct Sums {
    moved: i64,
    path: u64,
}

impl Model for Sums {
    ghost use Rattle.odometry.specs.Sums.{Sums as SumsState, AreSums};

    ghost Value = { SumsState };

    ghost view = { λ s. record { moved = s.moved; path = s.path } };

    ghost invariant = { λ s. AreSums (record { moved = s.moved; path = s.path }) };

    ghost inverse = { λ s. record { moved = s.moved; path = s.path } };
}

impl Sums {
    /// The sums at the start of a life: both 0.
    pub const ZERO: Sums = Sums { moved: 0, path: 0 };

    /// The sum of the movements, forward positive, in centimetres; at most 2^40 from 0.
    pub fn moved(&self) -> Cm
        ensures value { result ≡ self.now.moved }
        ensures near { unsigned_abs result ≤ farthest }
    {
        Cm::new_unchecked(self.moved)
    }

    /// The path, in centimetres: from 0 to 2^40. It never falls within a life.
    pub fn path(&self) -> Length
        ensures { result ≡ self.now.path }
    {
        Length::new_unchecked(self.path)
    }

    /// The sums after one movement more; None exactly where the path would be too long.
    pub(crate) fn moved_on(&self, movement: Movement) -> Option<Sums>
        ensures found { IsSome result ↔ (self.now.path + unsigned_abs movement ≤ farthest) }
        ensures value { IfSome result (λ sums. sums ≡ moved_on self.now movement) }
    {
        let by = movement.get();
        let path = self.path + by.unsigned_abs();
        if path > FARTHEST {
            return None;
        }
        Some(Sums {
            moved: self.moved + by,
            path,
        })
    }

    /// The movement from an earlier or a later moment to this one.
    pub(crate) fn movement_from(&self, other: &Sums) -> i64
        ensures value { result ≡ movement_between other.now self.now }
        ensures near { unsigned_abs result ≤ 2 * farthest }
    {
        self.moved - other.moved
    }

    /// The path between two moments, whichever came first.
    pub(crate) fn path_from(&self, other: &Sums) -> u64
        ensures value { result ≡ path_between other.now self.now }
        ensures near { result ≤ farthest }
    {
        other.path.abs_diff(self.path)
    }
}
