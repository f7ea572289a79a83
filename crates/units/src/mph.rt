//! Speeds up to 600 km/h, counted in metres per hour.
ghost use Rattle.std.specs.Prelude.{◌≡◌, ◌↔◌, IsSome, IfSome};
ghost use Rattle.units.specs.Limits.{IsMph};

use std::marker::Model;

/// A speed in metres per hour, 1 km/h being 1,000: from 0 to 600,000 (this project's profile).
#[derive(Clone, Copy, PartialEq, Eq, PartialOrd, Ord)]
pub struct Mph {
    mph: u32,
}

impl Model for Mph {
    ghost use Rattle.std.specs.Prelude.{ℕ};
    ghost use Rattle.units.specs.Limits.{IsMph};

    ghost Value = { ℕ };

    ghost view = { λ v. v.mph };

    ghost invariant = { λ v. IsMph v.mph };

    ghost inverse = { λ n. record { mph = n } };
}

/// The greatest speed, in metres per hour: 120 steps of 5 km/h.
const FASTEST: u32 = 600_000;

impl Mph {
    /// So many metres per hour; None exactly outside the limits.
    pub fn new(mph: u32) -> Option<Mph>
        ensures found { IsSome result ↔ IsMph mph }
        ensures value { IfSome result (λ v. v ≡ mph) }
    {
        if mph <= FASTEST {
            Some(Mph { mph })
        } else {
            None
        }
    }

    /// So many metres per hour, which are proved to lie within the limits, so nothing is compared.
    pub fn new_unchecked(mph: u32) -> Mph
        requires { IsMph mph }
        ensures { result ≡ mph }
    {
        Mph { mph }
    }

    /// The number of metres per hour.
    pub fn get(self) -> u32
        ensures value { result ≡ self }
        ensures limits { IsMph result }
    {
        self.mph
    }
}
