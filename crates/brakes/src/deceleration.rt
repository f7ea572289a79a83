//! How much the brakes slow a train, on level track and on a gradient.
ghost use Rattle.std.specs.Prelude.{◌≡◌, ◌*◌, ◌≤◌, ◌↔◌, pos, ◌+ℤ◌, ◌*ℤ◌, IsSome, IfSome};
ghost use Rattle.std.specs.Int.{int_div_euclid};
ghost use Rattle.units.specs.Stretches.{natural};
ghost use Rattle.brakes.specs.Limits.{IsDeceleration};
ghost use Rattle.brakes.specs.Brakes.{slowing_on};

use std::marker::Model;
use units::Permille;

/// The deceleration of a train on level track (SUBSET-026, 3.18.3; this project's profile), in cm/s^2: from 1 to 300.
#[derive(Clone, Copy, PartialEq, Eq)]
pub struct Deceleration {
    cm_per_second_squared: u16,
}

impl Model for Deceleration {
    ghost use Rattle.std.specs.Prelude.{ℕ};
    ghost use Rattle.brakes.specs.Limits.{IsDeceleration};

    ghost Value = { ℕ };

    ghost view = { λ d. d.cm_per_second_squared };

    ghost invariant = { λ d. IsDeceleration d.cm_per_second_squared };

    ghost inverse = { λ n. record { cm_per_second_squared = n } };
}

impl Deceleration {
    /// So many cm/s^2; None exactly outside the limits.
    pub fn new(cm_per_second_squared: u16) -> Option<Deceleration>
        ensures found { IsSome result ↔ IsDeceleration cm_per_second_squared }
        ensures value { IfSome result (λ d. d ≡ cm_per_second_squared) }
    {
        if 1 <= cm_per_second_squared && cm_per_second_squared <= 300 {
            Some(Deceleration {
                cm_per_second_squared,
            })
        } else {
            None
        }
    }

    /// The number of cm/s^2.
    pub fn get(self) -> u16
        ensures value { result ≡ self }
        ensures limits { IsDeceleration result }
    {
        self.cm_per_second_squared
    }
}

/// The deceleration on a gradient, in cm/s^2, rounded down; never below 0, and 0 where no gradient is known.
pub fn slowing(deceleration: Deceleration, gradient: Option<Permille>) -> u16
    ensures value { result ≡ slowing_on deceleration gradient }
    ensures small { result ≤ 549 }
{
    gradient.map_or(0, |gradient| slowing_at(deceleration, gradient))
}

// The deceleration on a gradient, in cm/s^2.
fn slowing_at(deceleration: Deceleration, gradient: Permille) -> u16
    ensures value { result ≡ natural (pos deceleration +ℤ int_div_euclid (pos 981 *ℤ gradient) (pos 1000)) }
    ensures small { result ≤ 549 }
{
    let change = (981 * i32::from(gradient.get())).div_euclid(1000);
    (i32::from(deceleration.get()) + change).max(0) as u16
}
