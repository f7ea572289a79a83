//! Gradients of at most 254 per mille, up or down; uphill is positive.
ghost use Rattle.std.specs.Prelude.{◌≡◌, ◌↔◌, IsSome, IfSome};
ghost use Rattle.units.specs.Limits.{IsPermille};

use std::marker::Model;

/// A gradient in per mille, uphill positive: from -254 to 254 (this project's profile).
#[derive(Clone, Copy, PartialEq, Eq)]
pub struct Permille {
    permille: i16,
}

impl Model for Permille {
    ghost use Rattle.std.specs.Prelude.{ℤ};
    ghost use Rattle.units.specs.Limits.{IsPermille};

    ghost Value = { ℤ };

    ghost view = { λ g. g.permille };

    ghost invariant = { λ g. IsPermille g.permille };

    ghost inverse = { λ z. record { permille = z } };
}

/// The steepest gradient, in per mille.
const STEEPEST: i16 = 254;

impl Permille {
    /// So many per mille; None exactly outside the limits.
    pub fn new(permille: i16) -> Option<Permille>
        ensures found { IsSome result ↔ IsPermille permille }
        ensures value { IfSome result (λ g. g ≡ permille) }
    {
        if -STEEPEST <= permille && permille <= STEEPEST {
            Some(Permille { permille })
        } else {
            None
        }
    }

    /// The number of per mille.
    pub fn get(self) -> i16
        ensures value { result ≡ self }
        ensures limits { IsPermille result }
    {
        self.permille
    }
}
