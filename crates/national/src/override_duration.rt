//! T_NVOVTRP in milliseconds, up to 254 s.
ghost use Rattle.std.specs.Prelude.{◌≡◌, ◌↔◌, IsSome, IfSome};
ghost use Rattle.national.specs.Limits.{IsOverrideDuration};

use std::marker::Model;
use units::Ms;

/// How long the trip stays overridden where that has an end (T_NVOVTRP; SUBSET-026, 7.5.1), in milliseconds: from 0 to
/// 254,000.
#[derive(Clone, Copy, PartialEq, Eq)]
pub struct OverrideDuration {
    ms: u32,
}

impl Model for OverrideDuration {
    ghost use Rattle.std.specs.Prelude.{ℕ};
    ghost use Rattle.national.specs.Limits.{IsOverrideDuration};

    ghost Value = { ℕ };

    ghost view = { λ t. t.ms };

    ghost invariant = { λ t. IsOverrideDuration t.ms };

    ghost inverse = { λ n. record { ms = n } };
}

/// The longest one, in milliseconds.
const LONGEST: u32 = 254_000;

impl OverrideDuration {
    /// So many milliseconds; None exactly outside the limits.
    pub fn new(ms: u32) -> Option<OverrideDuration>
        ensures found { IsSome result ↔ IsOverrideDuration ms }
        ensures value { IfSome result (λ t. t ≡ ms) }
    {
        if ms <= LONGEST {
            Some(OverrideDuration { ms })
        } else {
            None
        }
    }

    /// The number of milliseconds.
    pub fn get(self) -> u32
        ensures value { result ≡ self }
        ensures limits { IsOverrideDuration result }
    {
        self.ms
    }

    /// The same span as a `Ms`.
    pub fn to_ms(self) -> Ms
        ensures value { result ≡ self }
        ensures limits { IsOverrideDuration result }
    {
        Ms::new(u64::from(self.ms)).unwrap()
    }
}
