//! Variables D_ and L_ whose number 32,767 isn't a distance, but means at once or no end.
use crate::distance::Distance;
use crate::variable::{NoValue, Variable};

/// D_VALIDNV and D_LEVELTR: where an announcement comes into force (SUBSET-026, 7.5.1).
#[derive(Clone, Copy)]
pub enum StartPlace {
    /// So far beyond the group.
    At(Distance),
    /// At once.
    Now,
}

impl Variable for StartPlace {
    ghost use Rattle.std.specs.Prelude.{refl};
    ghost use Rattle.std.proofs.Common.{arith};
    ghost use Rattle.vars.specs.Variables.{start_place};

    ghost codes = { start_place };

    ghost WIDTH = { 15 };

    const WIDTH: u32 = 15;

    #[tactic(auto, unfolding(crate::specs::Values::start_place_of))]
    fn of_number(number: u64) -> Result<StartPlace, NoValue> {
        match number {
            32767 => Ok(StartPlace::Now),
            _ => {
                let value = Distance::of_number(number)?;
                Ok(StartPlace::At(value))
            }
        }
    }

    fn number(&self) -> u64 {
        match self {
            StartPlace::At(value) => value.number(),
            StartPlace::Now => 32767,
        }
    }

    #[tactic(auto, using(crate::proofs::OwnNumbers::start_place_own), unfolding(crate::specs::Values::start_place_of))]
    fn has_own_number(&self) -> bool {
        match self {
            StartPlace::At(value) => value.number() != 32767,
            StartPlace::Now => true,
        }
    }

    ghost width_is = { refl };

    ghost width_small = { Prim.omega arith };
}

/// L_MAMODE and D_NVSTFF: a length that may have no end (SUBSET-026, 7.5.1).
#[derive(Clone, Copy)]
pub enum OpenLength {
    /// This length.
    Length(Distance),
    /// No end.
    NoEnd,
}

impl Variable for OpenLength {
    ghost use Rattle.std.specs.Prelude.{refl};
    ghost use Rattle.std.proofs.Common.{arith};
    ghost use Rattle.vars.specs.Variables.{open_length};

    ghost codes = { open_length };

    ghost WIDTH = { 15 };

    const WIDTH: u32 = 15;

    #[tactic(auto, unfolding(crate::specs::Values::open_length_of))]
    fn of_number(number: u64) -> Result<OpenLength, NoValue> {
        match number {
            32767 => Ok(OpenLength::NoEnd),
            _ => {
                let value = Distance::of_number(number)?;
                Ok(OpenLength::Length(value))
            }
        }
    }

    fn number(&self) -> u64 {
        match self {
            OpenLength::Length(value) => value.number(),
            OpenLength::NoEnd => 32767,
        }
    }

    #[tactic(auto, using(crate::proofs::OwnNumbers::open_length_own), unfolding(crate::specs::Values::open_length_of))]
    fn has_own_number(&self) -> bool {
        match self {
            OpenLength::Length(value) => value.number() != 32767,
            OpenLength::NoEnd => true,
        }
    }

    ghost width_is = { refl };

    ghost width_small = { Prim.omega arith };
}
