//! Variables V_: steps of 5 km/h, turned into metres per hour.
ghost use Rattle.std.specs.Prelude.{◌≡◌, ◌*◌};

use crate::variable::{NoValue, Variable};
use std::marker::Model;
use units::Mph;

/// A speed in steps of 5 km/h (variables V_): from 0 to 120 (SUBSET-026, 7.5.1). A number above 120 is no speed.
#[derive(Clone, Copy)]
pub struct SpeedStep {
    steps: u8,
}

impl Model for SpeedStep {
    ghost use Rattle.std.specs.Prelude.{ℕ, ◌≤◌};

    ghost Value = { ℕ };

    ghost view = { λ v. v.steps };

    ghost invariant = { λ v. v.steps ≤ 120 };

    ghost inverse = { λ n. record { steps = n } };
}

impl SpeedStep {
    /// The speed in metres per hour.
    pub fn speed(self) -> Mph
        ensures { result ≡ 5_000 * self }
    {
        Mph::new(5_000 * u32::from(self.steps)).unwrap()
    }
}

impl Variable for SpeedStep {
    ghost use Rattle.std.specs.Prelude.{refl};
    ghost use Rattle.std.proofs.Common.{arith};
    ghost use Rattle.vars.specs.Variables.{speed};

    ghost codes = { speed };

    ghost WIDTH = { 7 };

    const WIDTH: u32 = 7;

    fn of_number(number: u64) -> Result<SpeedStep, NoValue> {
        if number > 120 {
            return Err(NoValue::OutOfRange);
        }
        Ok(SpeedStep {
            steps: number as u8,
        })
    }

    fn number(&self) -> u64 {
        u64::from(self.steps)
    }

    fn has_own_number(&self) -> bool {
        self.steps <= 120
    }

    ghost width_is = { refl };

    ghost width_small = { Prim.omega arith };
}
