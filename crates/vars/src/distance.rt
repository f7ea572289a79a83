//! Variables D_ and L_: steps of the packet's Q_SCALE, turned into centimetres.
ghost use Rattle.std.specs.Prelude.{◌≡◌, ◌*◌};
ghost use Rattle.vars.specs.Meanings.{centimetres_of};

use crate::scale::Scale;
use crate::variable::{NoValue, Variable};
use std::marker::Model;
use units::Reach;

/// A distance or a length in units of the packet's scale (variables D_ and L_): from 0 to 32,767 (SUBSET-026, 7.5.1).
#[derive(Clone, Copy)]
pub struct Distance {
    steps: u16,
}

impl Model for Distance {
    ghost use Rattle.std.specs.Prelude.{ℕ, ◌<◌, ◌^◌};

    ghost Value = { ℕ };

    ghost view = { λ d. d.steps };

    ghost invariant = { λ d. d.steps < 2 ^ 15 };

    ghost inverse = { λ n. record { steps = n } };
}

impl Distance {
    /// The distance in centimetres.
    pub fn in_scale(self, scale: Scale) -> Reach
        ensures { result ≡ self * centimetres_of scale }
    {
        Reach::new(u32::from(self.steps) * scale.centimetres()).unwrap()
    }
}

impl Variable for Distance {
    ghost use Rattle.std.specs.Prelude.{refl};
    ghost use Rattle.std.proofs.Common.{arith};
    ghost use Rattle.vars.specs.Variables.{distance};

    ghost codes = { distance };

    ghost WIDTH = { 15 };

    const WIDTH: u32 = 15;

    fn of_number(number: u64) -> Result<Distance, NoValue> {
        Ok(Distance {
            steps: number as u16,
        })
    }

    fn number(&self) -> u64 {
        u64::from(self.steps)
    }

    fn has_own_number(&self) -> bool {
        true
    }

    ghost width_is = { refl };

    ghost width_small = { Prim.omega arith };
}
