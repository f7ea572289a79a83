//! Levels and modes that packets 41 and 80 ask for: M_LEVELTR, NID_STM and M_MAMODE.
use crate::variable::{NoValue, Variable};
use std::marker::Model;

/// M_LEVELTR: the level that a transition leads to (SUBSET-026, 7.5.1).
#[derive(Clone, Copy)]
pub enum Level {
    /// Level 0.
    Level0,
    /// A national system, by a specific transmission module.
    Stm,
    /// Level 1.
    Level1,
    /// Level 2.
    Level2,
    /// Level 3.
    Level3,
}

impl Variable for Level {
    ghost use Rattle.std.specs.Prelude.{refl};
    ghost use Rattle.std.proofs.Common.{arith};
    ghost use Rattle.vars.specs.Variables.{m_leveltr};

    ghost codes = { m_leveltr };

    ghost WIDTH = { 3 };

    const WIDTH: u32 = 3;

    #[tactic(auto, unfolding(crate::specs::Values::level_of))]
    fn of_number(number: u64) -> Result<Level, NoValue> {
        match number {
            0 => Ok(Level::Level0),
            1 => Ok(Level::Stm),
            2 => Ok(Level::Level1),
            3 => Ok(Level::Level2),
            4 => Ok(Level::Level3),
            _ => Err(NoValue::Spare),
        }
    }

    fn number(&self) -> u64 {
        match self {
            Level::Level0 => 0,
            Level::Stm => 1,
            Level::Level1 => 2,
            Level::Level2 => 3,
            Level::Level3 => 4,
        }
    }

    #[tactic(auto, using(crate::proofs::OwnNumbers::m_leveltr_own))]
    fn has_own_number(&self) -> bool {
        true
    }

    ghost width_is = { refl };

    ghost width_small = { Prim.omega arith };
}

/// NID_STM: which specific transmission module (SUBSET-026, 7.5.1).
#[derive(Clone, Copy, Default)]
pub struct StmIdentity {
    number: u8,
}

impl Model for StmIdentity {
    ghost use Rattle.std.specs.Prelude.{ℕ};

    ghost Value = { ℕ };

    ghost view = { λ n. n.number };

    ghost inverse = { λ n. record { number = n } };
}

impl Variable for StmIdentity {
    ghost use Rattle.std.specs.Prelude.{refl};
    ghost use Rattle.std.proofs.Common.{arith};
    ghost use Rattle.vars.specs.Variables.{nid_stm};

    ghost codes = { nid_stm };

    ghost WIDTH = { 8 };

    const WIDTH: u32 = 8;

    fn of_number(number: u64) -> Result<StmIdentity, NoValue> {
        Ok(StmIdentity {
            number: number as u8,
        })
    }

    fn number(&self) -> u64 {
        u64::from(self.number)
    }

    fn has_own_number(&self) -> bool {
        true
    }

    ghost width_is = { refl };

    ghost width_small = { Prim.omega arith };
}

/// M_MAMODE: the mode that is asked for in an area (SUBSET-026, 7.5.1).
#[derive(Clone, Copy)]
pub enum AreaMode {
    /// On Sight.
    OnSight,
    /// Shunting.
    Shunting,
}

impl Variable for AreaMode {
    ghost use Rattle.std.specs.Prelude.{refl};
    ghost use Rattle.std.proofs.Common.{arith};
    ghost use Rattle.vars.specs.Variables.{m_mamode};

    ghost codes = { m_mamode };

    ghost WIDTH = { 2 };

    const WIDTH: u32 = 2;

    #[tactic(auto, unfolding(crate::specs::Values::area_mode_of))]
    fn of_number(number: u64) -> Result<AreaMode, NoValue> {
        match number {
            0 => Ok(AreaMode::OnSight),
            1 => Ok(AreaMode::Shunting),
            _ => Err(NoValue::Spare),
        }
    }

    fn number(&self) -> u64 {
        match self {
            AreaMode::OnSight => 0,
            AreaMode::Shunting => 1,
        }
    }

    #[tactic(auto, using(crate::proofs::OwnNumbers::m_mamode_own))]
    fn has_own_number(&self) -> bool {
        true
    }

    ghost width_is = { refl };

    ghost width_small = { Prim.omega arith };
}
