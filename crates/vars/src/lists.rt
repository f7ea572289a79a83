//! N_ITER, which counts the elements of a list, and NC_DIFF, the category of trains of an element.
ghost use Rattle.std.specs.Prelude.{◌≡◌, ◌<◌, ◌^◌};

use crate::variable::{NoValue, Variable};
use std::marker::Model;

/// N_ITER: how many elements of a list follow, from 0 to 31 (SUBSET-026, 7.5.1).
#[derive(Clone, Copy)]
pub struct Iterations {
    count: u8,
}

impl Model for Iterations {
    ghost use Rattle.std.specs.Prelude.{ℕ, ◌<◌, ◌^◌};

    ghost Value = { ℕ };

    ghost view = { λ n. n.count };

    ghost invariant = { λ n. n.count < 2 ^ 5 };

    ghost inverse = { λ n. record { count = n } };
}

impl Iterations {
    /// The number of elements.
    pub fn count(self) -> u8
        ensures value { result ≡ self }
        ensures bound { result < 2 ^ 5 }
    {
        self.count
    }
}

impl Variable for Iterations {
    ghost use Rattle.std.specs.Prelude.{refl};
    ghost use Rattle.std.proofs.Common.{arith};
    ghost use Rattle.vars.specs.Variables.{n_iter};

    ghost codes = { n_iter };

    ghost WIDTH = { 5 };

    const WIDTH: u32 = 5;

    fn of_number(number: u64) -> Result<Iterations, NoValue> {
        Ok(Iterations {
            count: number as u8,
        })
    }

    fn number(&self) -> u64 {
        u64::from(self.count)
    }

    fn has_own_number(&self) -> bool {
        true
    }

    ghost width_is = { refl };

    ghost width_small = { Prim.omega arith };
}

/// NC_DIFF: the category of trains that a speed is for, from 0 to 15 (SUBSET-026, 7.5.1).
#[derive(Clone, Copy)]
pub struct TrainCategory {
    category: u8,
}

impl Model for TrainCategory {
    ghost use Rattle.std.specs.Prelude.{ℕ, ◌<◌, ◌^◌};

    ghost Value = { ℕ };

    ghost view = { λ n. n.category };

    ghost invariant = { λ n. n.category < 2 ^ 4 };

    ghost inverse = { λ n. record { category = n } };
}

impl Variable for TrainCategory {
    ghost use Rattle.std.specs.Prelude.{refl};
    ghost use Rattle.std.proofs.Common.{arith};
    ghost use Rattle.vars.specs.Variables.{nc_diff};

    ghost codes = { nc_diff };

    ghost WIDTH = { 4 };

    const WIDTH: u32 = 4;

    fn of_number(number: u64) -> Result<TrainCategory, NoValue> {
        Ok(TrainCategory {
            category: number as u8,
        })
    }

    fn number(&self) -> u64 {
        u64::from(self.category)
    }

    fn has_own_number(&self) -> bool {
        true
    }

    ghost width_is = { refl };

    ghost width_small = { Prim.omega arith };
}
