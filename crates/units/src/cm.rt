//! Signed centimetres within 2^42 either way: sums and differences that are tested, and steps by a reach.
ghost use Rattle.std.specs.Prelude.{◌≡◌, ◌↔◌, ◌+◌, ◌≤◌, pos, ◌+ℤ◌, ◌-ℤ◌, IsSome, IfSome};
ghost use Rattle.std.specs.Int.RustNames.{unsigned_abs};
ghost use Rattle.units.specs.Limits.{IsCm, HasReach, reach};

use crate::Reach;
use std::marker::Model;

/// A distance or a place, in centimetres: from -2^42 to 2^42 (this project's profile). Places beyond the start of a
/// life are negative.
#[derive(Clone, Copy, PartialEq, Eq, PartialOrd, Ord)]
pub struct Cm {
    cm: i64,
}

impl Model for Cm {
    ghost use Rattle.std.specs.Prelude.{ℤ};
    ghost use Rattle.units.specs.Limits.{IsCm};

    ghost Value = { ℤ };

    ghost view = { λ c. c.cm };

    ghost invariant = { λ c. IsCm c.cm };

    ghost inverse = { λ z. record { cm = z } };
}

/// The greatest place, in centimetres.
const OUTERMOST: i64 = 1 << 42;

impl Cm {
    /// The place where a life starts; no distance.
    pub const ZERO: Cm = Cm { cm: 0 };

    /// The least place.
    pub const MIN: Cm = Cm { cm: -OUTERMOST };

    /// The greatest place.
    pub const MAX: Cm = Cm { cm: OUTERMOST };

    /// So many centimetres; None exactly outside the limits.
    pub fn new(cm: i64) -> Option<Cm>
        ensures found { IsSome result ↔ IsCm cm }
        ensures value { IfSome result (λ c. c ≡ cm) }
    {
        if -OUTERMOST <= cm && cm <= OUTERMOST {
            Some(Cm { cm })
        } else {
            None
        }
    }

    /// So many centimetres, which are proved to lie within the limits, so nothing is compared.
    pub fn new_unchecked(cm: i64) -> Cm
        requires { IsCm cm }
        ensures { result ≡ cm }
    {
        Cm { cm }
    }

    /// The number of centimetres.
    pub fn get(self) -> i64
        ensures value { result ≡ self }
        ensures limits { IsCm result }
    {
        self.cm
    }

    /// The sum; None exactly where it lies outside the limits.
    pub fn checked_add(self, other: Cm) -> Option<Cm>
        ensures found { IsSome result ↔ IsCm (self +ℤ other) }
        ensures value { IfSome result (λ c. c ≡ self +ℤ other) }
    {
        Cm::new(self.cm + other.cm)
    }

    /// The difference; None exactly where it lies outside the limits.
    pub fn checked_sub(self, other: Cm) -> Option<Cm>
        ensures found { IsSome result ↔ IsCm (self -ℤ other) }
        ensures value { IfSome result (λ c. c ≡ self -ℤ other) }
    {
        Cm::new(self.cm - other.cm)
    }

    /// The place `by` ahead. The caller owes a place so far within the limits that any `Reach` from it is a `Cm`.
    pub fn ahead(self, by: Reach) -> Cm
        requires { HasReach self }
        ensures value { result ≡ self +ℤ pos by }
        ensures near { unsigned_abs result ≤ unsigned_abs self + reach }
    {
        Cm::new_unchecked(self.cm + i64::from(by.get()))
    }

    /// The place `by` back. The caller owes a place so far within the limits that any `Reach` from it is a `Cm`.
    pub fn back(self, by: Reach) -> Cm
        requires { HasReach self }
        ensures { result ≡ self -ℤ pos by }
    {
        Cm::new_unchecked(self.cm - i64::from(by.get()))
    }
}
