//! The variables of an announced group in packet 5: Q_LINKORIENTATION, Q_LINKREACTION and Q_LOCACC.
ghost use Rattle.std.specs.Prelude.{◌≡◌, ◌*◌, pos};

use crate::variable::{NoValue, Variable};
use std::marker::Model;
use units::Cm;

/// Q_LINKORIENTATION: the direction in which an announced group will be passed (SUBSET-026, 7.5.1).
#[derive(Clone, Copy)]
pub enum LinkOrientation {
    /// In its reverse direction.
    Reverse,
    /// In its nominal direction.
    Nominal,
}

impl Variable for LinkOrientation {
    ghost use Rattle.std.specs.Prelude.{refl};
    ghost use Rattle.std.proofs.Common.{arith};
    ghost use Rattle.vars.specs.Variables.{q_linkorientation};

    ghost codes = { q_linkorientation };

    ghost WIDTH = { 1 };

    const WIDTH: u32 = 1;

    #[tactic(auto, unfolding(crate::specs::Values::orientation_of))]
    fn of_number(number: u64) -> Result<LinkOrientation, NoValue> {
        match number {
            0 => Ok(LinkOrientation::Reverse),
            _ => Ok(LinkOrientation::Nominal),
        }
    }

    fn number(&self) -> u64 {
        match self {
            LinkOrientation::Reverse => 0,
            LinkOrientation::Nominal => 1,
        }
    }

    #[tactic(auto, using(crate::proofs::OwnNumbers::q_linkorientation_own))]
    fn has_own_number(&self) -> bool {
        true
    }

    ghost width_is = { refl };

    ghost width_small = { Prim.omega arith };
}

/// Q_LINKREACTION: what follows where an announced group isn't found (SUBSET-026, 7.5.1).
#[derive(Clone, Copy)]
pub enum LinkReaction {
    /// A trip.
    Trip,
    /// The service brake.
    ServiceBrake,
    /// Nothing.
    NoReaction,
}

impl Variable for LinkReaction {
    ghost use Rattle.std.specs.Prelude.{refl};
    ghost use Rattle.std.proofs.Common.{arith};
    ghost use Rattle.vars.specs.Variables.{q_linkreaction};

    ghost codes = { q_linkreaction };

    ghost WIDTH = { 2 };

    const WIDTH: u32 = 2;

    #[tactic(auto, unfolding(crate::specs::Values::reaction_of))]
    fn of_number(number: u64) -> Result<LinkReaction, NoValue> {
        match number {
            0 => Ok(LinkReaction::Trip),
            1 => Ok(LinkReaction::ServiceBrake),
            2 => Ok(LinkReaction::NoReaction),
            _ => Err(NoValue::Spare),
        }
    }

    fn number(&self) -> u64 {
        match self {
            LinkReaction::Trip => 0,
            LinkReaction::ServiceBrake => 1,
            LinkReaction::NoReaction => 2,
        }
    }

    #[tactic(auto, using(crate::proofs::OwnNumbers::q_linkreaction_own))]
    fn has_own_number(&self) -> bool {
        true
    }

    ghost width_is = { refl };

    ghost width_small = { Prim.omega arith };
}

/// Q_LOCACC: how far an announced group may lie from its announced place, from 0 to 63 metres (SUBSET-026, 7.5.1).
#[derive(Clone, Copy)]
pub struct LocationAccuracy {
    metres: u8,
}

impl Model for LocationAccuracy {
    ghost use Rattle.std.specs.Prelude.{ℕ, ◌<◌, ◌^◌};

    ghost Value = { ℕ };

    ghost view = { λ n. n.metres };

    ghost invariant = { λ n. n.metres < 2 ^ 6 };

    ghost inverse = { λ n. record { metres = n } };
}

impl LocationAccuracy {
    /// The accuracy in centimetres.
    pub fn accuracy(self) -> Cm
        ensures { result ≡ pos (100 * self) }
    {
        Cm::new(100 * i64::from(self.metres)).unwrap()
    }
}

impl Variable for LocationAccuracy {
    ghost use Rattle.std.specs.Prelude.{refl};
    ghost use Rattle.std.proofs.Common.{arith};
    ghost use Rattle.vars.specs.Variables.{q_locacc};

    ghost codes = { q_locacc };

    ghost WIDTH = { 6 };

    const WIDTH: u32 = 6;

    fn of_number(number: u64) -> Result<LocationAccuracy, NoValue> {
        Ok(LocationAccuracy {
            metres: number as u8,
        })
    }

    fn number(&self) -> u64 {
        u64::from(self.metres)
    }

    fn has_own_number(&self) -> bool {
        true
    }

    ghost width_is = { refl };

    ghost width_small = { Prim.omega arith };
}
