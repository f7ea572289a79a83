//! Moments and spans of time: milliseconds below 2^40, some 34 years.
ghost use Rattle.std.specs.Prelude.{◌≡◌, ◌↔◌, IsSome, IfSome};
ghost use Rattle.units.specs.Limits.{IsMs};

use std::marker::Model;

/// A moment of a life or a span of time, in milliseconds: from 0 to 2^40 - 1 (this project's profile).
#[derive(Clone, Copy, PartialEq, Eq, PartialOrd, Ord)]
pub struct Ms {
    ms: u64,
}

impl Model for Ms {
    ghost use Rattle.std.specs.Prelude.{ℕ};
    ghost use Rattle.units.specs.Limits.{IsMs};

    ghost Value = { ℕ };

    ghost view = { λ t. t.ms };

    ghost invariant = { λ t. IsMs t.ms };

    ghost inverse = { λ n. record { ms = n } };
}

/// The milliseconds of the longest life, some 34 years (this project's profile).
pub const LONGEST_LIFE: u64 = 1 << 40;

impl Ms {
    /// So many milliseconds; None exactly outside the limits.
    pub fn new(ms: u64) -> Option<Ms>
        ensures found { IsSome result ↔ IsMs ms }
        ensures value { IfSome result (λ t. t ≡ ms) }
    {
        if ms < LONGEST_LIFE {
            Some(Ms { ms })
        } else {
            None
        }
    }

    /// The number of milliseconds.
    pub fn get(self) -> u64
        ensures value { result ≡ self }
        ensures limits { IsMs result }
    {
        self.ms
    }
}
