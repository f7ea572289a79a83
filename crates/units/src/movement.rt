//! The signed movement between two readings of the odometer, at most 100 m.
ghost use Rattle.std.specs.Prelude.{◌≡◌, ◌↔◌, IsSome, IfSome};
ghost use Rattle.units.specs.Limits.{IsMovement};

use std::marker::Model;

/// What the odometer moved since its last reading, forward or backward, in centimetres: from -10,000 to 10,000 (this
/// project's profile).
#[derive(Clone, Copy)]
pub struct Movement {
    cm: i64,
}

impl Model for Movement {
    ghost use Rattle.std.specs.Prelude.{ℤ};
    ghost use Rattle.units.specs.Limits.{IsMovement};

    ghost Value = { ℤ };

    ghost view = { λ m. m.cm };

    ghost invariant = { λ m. IsMovement m.cm };

    ghost inverse = { λ z. record { cm = z } };
}

/// The longest movement between two readings, in centimetres.
const LONGEST: i64 = 10_000;

impl Movement {
    /// So many centimetres; None exactly outside the limits.
    pub fn new(cm: i64) -> Option<Movement>
        ensures found { IsSome result ↔ IsMovement cm }
        ensures value { IfSome result (λ m. m ≡ cm) }
    {
        if -LONGEST <= cm && cm <= LONGEST {
            Some(Movement { cm })
        } else {
            None
        }
    }

    /// The number of centimetres.
    pub fn get(self) -> i64
        ensures value { result ≡ self }
        ensures limits { IsMovement result }
    {
        self.cm
    }
}
