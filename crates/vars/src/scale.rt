//! Q_SCALE: distances count in steps of 10 cm, 1 m or 10 m.
ghost use Rattle.std.specs.Prelude.{◌≡◌, ◌≤◌};
ghost use Rattle.vars.specs.Meanings.{centimetres_of};

use crate::variable::{NoValue, Variable};

/// Q_SCALE: the unit of the distances and lengths of a packet (SUBSET-026, 7.5.1).
#[derive(Clone, Copy)]
pub enum Scale {
    /// 10 cm.
    TenCentimetres,
    /// 1 m.
    OneMetre,
    /// 10 m.
    TenMetres,
}

impl Scale {
    /// The centimetres of one unit.
    pub fn centimetres(self) -> u32
        ensures { result ≡ centimetres_of self }
    {
        match self {
            Scale::TenCentimetres => 10,
            Scale::OneMetre => 100,
            Scale::TenMetres => 1_000,
        }
    }
}

impl Variable for Scale {
    ghost use Rattle.std.specs.Prelude.{refl};
    ghost use Rattle.std.proofs.Common.{arith};
    ghost use Rattle.vars.specs.Variables.{q_scale};

    ghost codes = { q_scale };

    ghost WIDTH = { 2 };

    const WIDTH: u32 = 2;

    #[tactic(auto, unfolding(crate::specs::Values::scale_of))]
    fn of_number(number: u64) -> Result<Scale, NoValue> {
        match number {
            0 => Ok(Scale::TenCentimetres),
            1 => Ok(Scale::OneMetre),
            2 => Ok(Scale::TenMetres),
            _ => Err(NoValue::Spare),
        }
    }

    fn number(&self) -> u64 {
        match self {
            Scale::TenCentimetres => 0,
            Scale::OneMetre => 1,
            Scale::TenMetres => 2,
        }
    }

    #[tactic(auto, using(crate::proofs::OwnNumbers::q_scale_own))]
    fn has_own_number(&self) -> bool {
        true
    }

    ghost width_is = { refl };

    ghost width_small = { Prim.omega arith };
}
