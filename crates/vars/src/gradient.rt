//! Q_GDIR and G_A, which together give a gradient or end the profile.
ghost use Rattle.std.specs.Prelude.{◌≡◌, ◌≢◌, ◌↔◌, IsSome, IfSome};
ghost use Rattle.vars.specs.Meanings.{signed_permille};

use crate::variable::{NoValue, Variable};
use std::marker::Model;
use units::Permille;

/// Q_GDIR: whether the track falls or rises (SUBSET-026, 7.5.1).
#[derive(Clone, Copy)]
pub enum GradientDirection {
    /// It falls.
    Downhill,
    /// It rises.
    Uphill,
}

impl Variable for GradientDirection {
    ghost use Rattle.std.specs.Prelude.{refl};
    ghost use Rattle.std.proofs.Common.{arith};
    ghost use Rattle.vars.specs.Variables.{q_gdir};

    ghost codes = { q_gdir };

    ghost WIDTH = { 1 };

    const WIDTH: u32 = 1;

    #[tactic(auto, unfolding(crate::specs::Values::gradient_direction_of))]
    fn of_number(number: u64) -> Result<GradientDirection, NoValue> {
        match number {
            0 => Ok(GradientDirection::Downhill),
            _ => Ok(GradientDirection::Uphill),
        }
    }

    fn number(&self) -> u64 {
        match self {
            GradientDirection::Downhill => 0,
            GradientDirection::Uphill => 1,
        }
    }

    #[tactic(auto, using(crate::proofs::OwnNumbers::q_gdir_own))]
    fn has_own_number(&self) -> bool {
        true
    }

    ghost width_is = { refl };

    ghost width_small = { Prim.omega arith };
}

/// G_A: the steepness of a gradient in per mille, from 0 to 254; 255 ends the profile.
#[derive(Clone, Copy)]
pub struct Steepness {
    permille: u8,
}

impl Model for Steepness {
    ghost use Rattle.std.specs.Prelude.{ℕ};

    ghost Value = { ℕ };

    ghost view = { λ n. n.permille };

    ghost inverse = { λ n. record { permille = n } };
}

impl Steepness {
    /// The gradient, uphill positive; None where the profile ends.
    pub fn gradient(self, direction: GradientDirection) -> Option<Permille>
        ensures found { IsSome result ↔ (self ≢ 255) }
        ensures value { IfSome result (λ g. g ≡ signed_permille direction self) }
    {
        if self.permille == 255 {
            return None;
        }
        let steepness = i16::from(self.permille);
        match direction {
            GradientDirection::Downhill => Permille::new(-steepness),
            GradientDirection::Uphill => Permille::new(steepness),
        }
    }
}

impl Variable for Steepness {
    ghost use Rattle.std.specs.Prelude.{refl};
    ghost use Rattle.std.proofs.Common.{arith};
    ghost use Rattle.vars.specs.Variables.{g_a};

    ghost codes = { g_a };

    ghost WIDTH = { 8 };

    const WIDTH: u32 = 8;

    fn of_number(number: u64) -> Result<Steepness, NoValue> {
        Ok(Steepness {
            permille: number as u8,
        })
    }

    fn number(&self) -> u64 {
        u64::from(self.permille)
    }

    fn has_own_number(&self) -> bool {
        true
    }

    ghost width_is = { refl };

    ghost width_small = { Prim.omega arith };
}
