//! Unsigned centimetres up to 327.67 km, the farthest that a variable D_ or L_ of a packet says.
ghost use Rattle.std.specs.Prelude.{◌≡◌, ◌↔◌, pos, IsSome, IfSome};
ghost use Rattle.units.specs.Limits.{IsReach};

use crate::Cm;
use std::marker::Model;

/// How far a distance or a length of a packet reaches, in centimetres: from 0 to 32,767,000, which is 2^15 - 1 units of
/// ten metres (SUBSET-026, 7.5.1).
#[derive(Clone, Copy, PartialEq, Eq)]
pub struct Reach {
    cm: u32,
}

impl Model for Reach {
    ghost use Rattle.std.specs.Prelude.{ℕ};
    ghost use Rattle.units.specs.Limits.{IsReach};

    ghost Value = { ℕ };

    ghost view = { λ r. r.cm };

    ghost invariant = { λ r. IsReach r.cm };

    ghost inverse = { λ n. record { cm = n } };
}

/// The farthest reach, in centimetres.
const FARTHEST: u32 = 32_767_000;

impl Reach {
    /// So many centimetres; None exactly outside the limits.
    pub fn new(cm: u32) -> Option<Reach>
        ensures found { IsSome result ↔ IsReach cm }
        ensures value { IfSome result (λ r. r ≡ cm) }
    {
        if cm <= FARTHEST {
            Some(Reach { cm })
        } else {
            None
        }
    }

    /// The number of centimetres.
    pub fn get(self) -> u32
        ensures value { result ≡ self }
        ensures limits { IsReach result }
    {
        self.cm
    }

    /// The same distance among all distances.
    pub fn to_cm(self) -> Cm
        ensures value { result ≡ pos self }
        ensures limits { IsReach self }
    {
        Cm::new_unchecked(i64::from(self.cm))
    }
}
