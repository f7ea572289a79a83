//! The way of one step, from 100 m backward to 10 km forward.
ghost use Rattle.std.specs.Prelude.{◌≡◌, ◌↔◌, IsSome, IfSome};
ghost use Rattle.simulator.specs.Limits.{IsDistance};

use std::marker::Model;

/// How far one step drives, forward or backward, in centimetres: from -10,000 to 1,000,000 (this project's profile).
#[derive(Clone, Copy)]
pub struct Distance {
    cm: i64,
}

impl Model for Distance {
    ghost use Rattle.std.specs.Prelude.{ℤ};
    ghost use Rattle.simulator.specs.Limits.{IsDistance};

    ghost Value = { ℤ };

    ghost view = { λ d. d.cm };

    ghost invariant = { λ d. IsDistance d.cm };

    ghost inverse = { λ z. record { cm = z } };
}

const FARTHEST_BACK: i64 = -10_000;

const FARTHEST: i64 = 1_000_000;

impl Distance {
    /// So many centimetres, from -10,000 to 1,000,000; None exactly outside these limits.
    pub fn new(cm: i64) -> Option<Distance>
        ensures found { IsSome result ↔ IsDistance cm }
        ensures value { IfSome result (λ d. d ≡ cm) }
    {
        if FARTHEST_BACK <= cm && cm <= FARTHEST {
            Some(Distance { cm })
        } else {
            None
        }
    }

    /// The number of centimetres.
    pub fn get(self) -> i64
        ensures value { result ≡ self }
        ensures limits { IsDistance result }
    {
        self.cm
    }
}
