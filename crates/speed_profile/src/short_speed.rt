//! Speeds in one byte.
ghost use Rattle.std.specs.Prelude.{◌≡◌, ◌*◌};

use std::marker::Model;
use units::Mph;
use vars::{SpeedStep, Variable};

/// A speed of the track as it is kept: a step of 5 km/h, in one byte. Contracts see its metres per hour (this project's
/// profile).
#[derive(Clone, Copy)]
pub struct ShortSpeed {
    step: SpeedStep,
}

impl Model for ShortSpeed {
    ghost use Rattle.std.specs.Prelude.{ℕ, ◌*◌, ◌/◌};
    ghost use Rattle.std.proofs.Common.{ap, lit<};
    ghost use Rattle.std.proofs.Math.Nat.{mul-div_cancel_left};

    ghost Value = { ℕ };

    ghost view = { λ s. 5_000 * s.step };

    ghost inverse = { λ mph. record { step = mph / 5_000 } };

    ghost inverse_ok = { λ s h. λ at. record { step = mul-div_cancel_left s.step {n = 5_000} (lit< tt) at } };
}

impl ShortSpeed {
    /// The speed of a step.
    pub fn of_step(step: SpeedStep) -> ShortSpeed
        ensures { result ≡ 5_000 * step }
    {
        ShortSpeed { step }
    }

    /// The speed, in metres per hour.
    pub fn get(self) -> Mph
        ensures { result ≡ self }
    {
        self.step.speed()
    }
}

impl PartialEq for ShortSpeed {
    ghost use Rattle.std.specs.Prelude.{◌==◌};
    ghost use Rattle.std.proofs.Common.{rules};
    ghost use Rattle.std.specs.Cmp.Rules.{comparing};

    ghost eq = { λ a b. a == b };

    ghost laws = { Prim.search (comparing, rules) };

    fn eq(&self, other: &ShortSpeed) -> bool {
        self.step.number() == other.step.number()
    }
}

impl Eq for ShortSpeed {
    ghost use Rattle.std.proofs.Common.{rules};
    ghost use Rattle.std.specs.Cmp.Rules.{comparing};

    ghost laws = { Prim.search (comparing, rules) };
}
