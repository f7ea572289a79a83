//! M_MCOUNT, with the numbers for a telegram that fits all others (255) or none (254).
ghost use Rattle.std.specs.Prelude.{◌≡◌, ◌↔◌, IsTrue};

use crate::variable::{NoValue, Variable};
use std::marker::Model;

/// M_MCOUNT: telegrams of a group with one counter belong to one message (SUBSET-026, 7.5.1).
#[derive(Clone, Copy, PartialEq, Eq)]
pub struct MessageCounter {
    count: u8,
}

impl Model for MessageCounter {
    ghost use Rattle.std.specs.Prelude.{ℕ};

    ghost Value = { ℕ };

    ghost view = { λ n. n.count };

    ghost inverse = { λ n. record { count = n } };
}

impl MessageCounter {
    /// Whether the telegram fits all others of its group (255).
    pub fn fits_all(self) -> bool
        ensures { IsTrue result ↔ (self ≡ 255) }
    {
        self.count == 255
    }

    /// Whether the telegram fits no message, and isn't to be used (254).
    pub fn fits_none(self) -> bool
        ensures { IsTrue result ↔ (self ≡ 254) }
    {
        self.count == 254
    }
}

impl Variable for MessageCounter {
    ghost use Rattle.std.specs.Prelude.{refl};
    ghost use Rattle.std.proofs.Common.{arith};
    ghost use Rattle.vars.specs.Variables.{m_mcount};

    ghost codes = { m_mcount };

    ghost WIDTH = { 8 };

    const WIDTH: u32 = 8;

    fn of_number(number: u64) -> Result<MessageCounter, NoValue> {
        Ok(MessageCounter {
            count: number as u8,
        })
    }

    fn number(&self) -> u64 {
        u64::from(self.count)
    }

    fn has_own_number(&self) -> bool {
        true
    }

    ghost width_is = { refl };

    ghost width_small = { Prim.omega arith };
}
