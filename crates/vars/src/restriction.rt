//! NID_TSR, which temporary speed restriction it is, and Q_FRONT, whether train length delays a speed's end.
ghost use Rattle.std.specs.Prelude.{◌≡◌, ◌↔◌, IsTrue};

use crate::variable::{NoValue, Variable};
use std::marker::Model;

/// NID_TSR: the number of a temporary speed restriction (SUBSET-026, 7.5.1).
#[derive(Clone, Copy, PartialEq, Eq)]
pub struct RestrictionNumber {
    number: u8,
}

impl Model for RestrictionNumber {
    ghost use Rattle.std.specs.Prelude.{ℕ};

    ghost Value = { ℕ };

    ghost view = { λ n. n.number };

    ghost inverse = { λ n. record { number = n } };
}

impl RestrictionNumber {
    /// Whether restrictions of this number are never replaced nor revoked (255).
    pub fn is_irrevocable(self) -> bool
        ensures { IsTrue result ↔ (self ≡ 255) }
    {
        self.number == 255
    }
}

impl Variable for RestrictionNumber {
    ghost use Rattle.std.specs.Prelude.{refl};
    ghost use Rattle.std.proofs.Common.{arith};
    ghost use Rattle.vars.specs.Variables.{nid_tsr};

    ghost codes = { nid_tsr };

    ghost WIDTH = { 8 };

    const WIDTH: u32 = 8;

    fn of_number(number: u64) -> Result<RestrictionNumber, NoValue> {
        Ok(RestrictionNumber {
            number: number as u8,
        })
    }

    fn number(&self) -> u64 {
        u64::from(self.number)
    }

    fn has_own_number(&self) -> bool {
        true
    }

    ghost width_is = { refl };

    ghost width_small = { Prim.omega arith };
}

/// Q_FRONT: whether a speed stays in force until the rear of the train has left its stretch (SUBSET-026, 7.5.1).
#[derive(Clone, Copy, PartialEq, Eq)]
pub enum TrainLengthDelay {
    /// Until the rear has left the stretch.
    Applied,
    /// Until the front has left the stretch.
    NotApplied,
}

impl Variable for TrainLengthDelay {
    ghost use Rattle.std.specs.Prelude.{refl};
    ghost use Rattle.std.proofs.Common.{arith};
    ghost use Rattle.vars.specs.Variables.{q_front};

    ghost codes = { q_front };

    ghost WIDTH = { 1 };

    const WIDTH: u32 = 1;

    fn of_number(number: u64) -> Result<TrainLengthDelay, NoValue> {
        match number {
            0 => Ok(TrainLengthDelay::Applied),
            _ => Ok(TrainLengthDelay::NotApplied),
        }
    }

    fn number(&self) -> u64 {
        match self {
            TrainLengthDelay::Applied => 0,
            TrainLengthDelay::NotApplied => 1,
        }
    }

    #[tactic(auto, using(crate::proofs::OwnNumbers::q_front_own))]
    fn has_own_number(&self) -> bool {
        true
    }

    ghost width_is = { refl };

    ghost width_small = { Prim.omega arith };
}
