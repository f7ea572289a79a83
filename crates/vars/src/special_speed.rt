//! Variables V_ with numbers that aren't speeds: V_RELEASEDP, V_RELEASEOL, V_STATIC and V_MAMODE.
use crate::speed::SpeedStep;
use crate::variable::{NoValue, Variable};

/// V_RELEASEDP and V_RELEASEOL: the speed at which a train may approach the end of its authority (SUBSET-026, 7.5.1).
#[derive(Clone, Copy)]
pub enum ReleaseSpeed {
    /// This speed.
    Speed(SpeedStep),
    /// The one that is reckoned on board.
    Onboard,
    /// The national value.
    National,
}

impl Variable for ReleaseSpeed {
    ghost use Rattle.std.specs.Prelude.{refl};
    ghost use Rattle.std.proofs.Common.{arith};
    ghost use Rattle.vars.specs.Variables.{v_release};

    ghost codes = { v_release };

    ghost WIDTH = { 7 };

    const WIDTH: u32 = 7;

    #[tactic(auto, unfolding(crate::specs::Values::release_of))]
    fn of_number(number: u64) -> Result<ReleaseSpeed, NoValue> {
        match number {
            126 => Ok(ReleaseSpeed::Onboard),
            127 => Ok(ReleaseSpeed::National),
            _ => {
                let value = SpeedStep::of_number(number)?;
                Ok(ReleaseSpeed::Speed(value))
            }
        }
    }

    fn number(&self) -> u64 {
        match self {
            ReleaseSpeed::Speed(value) => value.number(),
            ReleaseSpeed::Onboard => 126,
            ReleaseSpeed::National => 127,
        }
    }

    #[tactic(auto, using(crate::proofs::OwnNumbers::v_release_own), unfolding(crate::specs::Values::release_of))]
    fn has_own_number(&self) -> bool {
        match self {
            ReleaseSpeed::Speed(value) => value.has_own_number(),
            ReleaseSpeed::Onboard | ReleaseSpeed::National => true,
        }
    }

    ghost width_is = { refl };

    ghost width_small = { Prim.omega arith };
}

/// V_STATIC: the static speed from a place on (SUBSET-026, 7.5.1).
#[derive(Clone, Copy)]
pub enum StaticSpeed {
    /// This speed.
    Speed(SpeedStep),
    /// The profile ends.
    End,
}

impl Variable for StaticSpeed {
    ghost use Rattle.std.specs.Prelude.{refl};
    ghost use Rattle.std.proofs.Common.{arith};
    ghost use Rattle.vars.specs.Variables.{v_static};

    ghost codes = { v_static };

    ghost WIDTH = { 7 };

    const WIDTH: u32 = 7;

    #[tactic(auto, unfolding(crate::specs::Values::static_of))]
    fn of_number(number: u64) -> Result<StaticSpeed, NoValue> {
        match number {
            127 => Ok(StaticSpeed::End),
            _ => {
                let value = SpeedStep::of_number(number)?;
                Ok(StaticSpeed::Speed(value))
            }
        }
    }

    fn number(&self) -> u64 {
        match self {
            StaticSpeed::Speed(value) => value.number(),
            StaticSpeed::End => 127,
        }
    }

    #[tactic(auto, using(crate::proofs::OwnNumbers::v_static_own), unfolding(crate::specs::Values::static_of))]
    fn has_own_number(&self) -> bool {
        match self {
            StaticSpeed::Speed(value) => value.has_own_number(),
            StaticSpeed::End => true,
        }
    }

    ghost width_is = { refl };

    ghost width_small = { Prim.omega arith };
}

/// V_MAMODE: the speed in a mode area (SUBSET-026, 7.5.1).
#[derive(Clone, Copy)]
pub enum AreaSpeed {
    /// This speed.
    Speed(SpeedStep),
    /// The national value of its mode.
    National,
}

impl Variable for AreaSpeed {
    ghost use Rattle.std.specs.Prelude.{refl};
    ghost use Rattle.std.proofs.Common.{arith};
    ghost use Rattle.vars.specs.Variables.{v_mamode};

    ghost codes = { v_mamode };

    ghost WIDTH = { 7 };

    const WIDTH: u32 = 7;

    #[tactic(auto, unfolding(crate::specs::Values::area_speed_of))]
    fn of_number(number: u64) -> Result<AreaSpeed, NoValue> {
        match number {
            127 => Ok(AreaSpeed::National),
            _ => {
                let value = SpeedStep::of_number(number)?;
                Ok(AreaSpeed::Speed(value))
            }
        }
    }

    fn number(&self) -> u64 {
        match self {
            AreaSpeed::Speed(value) => value.number(),
            AreaSpeed::National => 127,
        }
    }

    #[tactic(auto, using(crate::proofs::OwnNumbers::v_mamode_own), unfolding(crate::specs::Values::area_speed_of))]
    fn has_own_number(&self) -> bool {
        match self {
            AreaSpeed::Speed(value) => value.has_own_number(),
            AreaSpeed::National => true,
        }
    }

    ghost width_is = { refl };

    ghost width_small = { Prim.omega arith };
}
