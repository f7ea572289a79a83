//! Where the front is estimated to be, within 2^40 cm either way.
ghost use Rattle.std.specs.Prelude.{◌≡◌, ◌↔◌, IsSome, IfSome};
ghost use Rattle.events.specs.Limits.{IsEstimate};

use std::marker::Model;
use units::FARTHEST;

/// The estimated place of the train's front, in centimetres from where its life began: from -2^40 to 2^40 (this
/// project's profile).
#[derive(Clone, Copy)]
pub struct Estimate {
    cm: i64,
}

impl Model for Estimate {
    ghost use Rattle.std.specs.Prelude.{ℤ};
    ghost use Rattle.events.specs.Limits.{IsEstimate};

    ghost Value = { ℤ };

    ghost view = { λ e. e.cm };

    ghost invariant = { λ e. IsEstimate e.cm };

    ghost inverse = { λ z. record { cm = z } };
}

impl Estimate {
    /// So many centimetres; None exactly outside the limits.
    pub fn new(cm: i64) -> Option<Estimate>
        ensures found { IsSome result ↔ IsEstimate cm }
        ensures value { IfSome result (λ e. e ≡ cm) }
    {
        if cm.unsigned_abs() <= FARTHEST {
            Some(Estimate { cm })
        } else {
            None
        }
    }

    /// The number of centimetres.
    pub fn get(self) -> i64
        ensures value { result ≡ self }
        ensures limits { IsEstimate result }
    {
        self.cm
    }
}
