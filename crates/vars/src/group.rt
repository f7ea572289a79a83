//! The variables of a balise and its group: N_PIG, N_TOTAL, M_DUP, NID_C and NID_BG.
use crate::variable::{NoValue, Variable};
use std::marker::Model;

/// N_PIG: the place of a balise in its group, from 0 to 7 (SUBSET-026, 7.5.1). N_TOTAL is the place of the last balise.
#[derive(Clone, Copy, PartialEq, Eq, PartialOrd, Ord)]
pub struct PositionInGroup {
    position: u8,
}

impl Model for PositionInGroup {
    ghost use Rattle.std.specs.Prelude.{ℕ, ◌<◌, ◌^◌};

    ghost Value = { ℕ };

    ghost view = { λ n. n.position };

    ghost invariant = { λ n. n.position < 2 ^ 3 };

    ghost inverse = { λ n. record { position = n } };
}

impl Variable for PositionInGroup {
    ghost use Rattle.std.specs.Prelude.{refl};
    ghost use Rattle.std.proofs.Common.{arith};
    ghost use Rattle.vars.specs.Variables.{position_in_group};

    ghost codes = { position_in_group };

    ghost WIDTH = { 3 };

    const WIDTH: u32 = 3;

    fn of_number(number: u64) -> Result<PositionInGroup, NoValue> {
        Ok(PositionInGroup {
            position: number as u8,
        })
    }

    fn number(&self) -> u64 {
        u64::from(self.position)
    }

    fn has_own_number(&self) -> bool {
        true
    }

    ghost width_is = { refl };

    ghost width_small = { Prim.omega arith };
}

/// M_DUP: whether a balise repeats its neighbour (SUBSET-026, 7.5.1).
#[derive(Clone, Copy)]
pub enum Duplicate {
    /// It repeats none.
    NoDuplicate,
    /// It repeats the next balise.
    OfNext,
    /// It repeats the previous balise.
    OfPrevious,
}

impl Variable for Duplicate {
    ghost use Rattle.std.specs.Prelude.{refl};
    ghost use Rattle.std.proofs.Common.{arith};
    ghost use Rattle.vars.specs.Variables.{m_dup};

    ghost codes = { m_dup };

    ghost WIDTH = { 2 };

    const WIDTH: u32 = 2;

    #[tactic(auto, unfolding(crate::specs::Values::duplicate_of))]
    fn of_number(number: u64) -> Result<Duplicate, NoValue> {
        match number {
            0 => Ok(Duplicate::NoDuplicate),
            1 => Ok(Duplicate::OfNext),
            2 => Ok(Duplicate::OfPrevious),
            _ => Err(NoValue::Spare),
        }
    }

    fn number(&self) -> u64 {
        match self {
            Duplicate::NoDuplicate => 0,
            Duplicate::OfNext => 1,
            Duplicate::OfPrevious => 2,
        }
    }

    #[tactic(auto, using(crate::proofs::OwnNumbers::m_dup_own))]
    fn has_own_number(&self) -> bool {
        true
    }

    ghost width_is = { refl };

    ghost width_small = { Prim.omega arith };
}

/// NID_C: a country or region, from 0 to 1,023 (SUBSET-026, 7.5.1).
#[derive(Clone, Copy, Default, PartialEq, Eq)]
pub struct Country {
    number: u16,
}

impl Model for Country {
    ghost use Rattle.std.specs.Prelude.{ℕ, ◌<◌, ◌^◌};

    ghost Value = { ℕ };

    ghost view = { λ n. n.number };

    ghost invariant = { λ n. n.number < 2 ^ 10 };

    ghost inverse = { λ n. record { number = n } };
}

impl Variable for Country {
    ghost use Rattle.std.specs.Prelude.{refl};
    ghost use Rattle.std.proofs.Common.{arith};
    ghost use Rattle.vars.specs.Variables.{nid_c};

    ghost codes = { nid_c };

    ghost WIDTH = { 10 };

    const WIDTH: u32 = 10;

    fn of_number(number: u64) -> Result<Country, NoValue> {
        Ok(Country {
            number: number as u16,
        })
    }

    fn number(&self) -> u64 {
        u64::from(self.number)
    }

    fn has_own_number(&self) -> bool {
        true
    }

    ghost width_is = { refl };

    ghost width_small = { Prim.omega arith };
}

/// NID_BG: the number of a balise group within its country or region, from 0 to 16,383 (SUBSET-026, 7.5.1).
#[derive(Clone, Copy, PartialEq, Eq)]
pub struct GroupNumber {
    number: u16,
}

impl Model for GroupNumber {
    ghost use Rattle.std.specs.Prelude.{ℕ, ◌<◌, ◌^◌};

    ghost Value = { ℕ };

    ghost view = { λ n. n.number };

    ghost invariant = { λ n. n.number < 2 ^ 14 };

    ghost inverse = { λ n. record { number = n } };
}

impl Variable for GroupNumber {
    ghost use Rattle.std.specs.Prelude.{refl};
    ghost use Rattle.std.proofs.Common.{arith};
    ghost use Rattle.vars.specs.Variables.{nid_bg};

    ghost codes = { nid_bg };

    ghost WIDTH = { 14 };

    const WIDTH: u32 = 14;

    fn of_number(number: u64) -> Result<GroupNumber, NoValue> {
        Ok(GroupNumber {
            number: number as u16,
        })
    }

    fn number(&self) -> u64 {
        u64::from(self.number)
    }

    fn has_own_number(&self) -> bool {
        true
    }

    ghost width_is = { refl };

    ghost width_small = { Prim.omega arith };
}

/// Which balise group it is (SUBSET-026, 7.5.1).
#[derive(Clone, Copy, PartialEq, Eq)]
pub struct GroupIdentity {
    /// NID_C.
    pub country: Country,
    /// NID_BG.
    pub number: GroupNumber,
}
