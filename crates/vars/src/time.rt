//! Variables T_, in seconds: the timers of a movement authority, and T_NVOVTRP of an override.
ghost use Rattle.std.specs.Prelude.{◌≡◌, ◌≢◌, ◌*◌, ◌↔◌, IsSome, IfSome};

use crate::variable::{NoValue, Variable};
use std::marker::Model;
use units::Ms;

/// T_LOA, T_SECTIONTIMER, T_ENDTIMER and T_OL: seconds, from 0 to 1,022; 1,023 has no expiry (SUBSET-026, 7.5.1).
#[derive(Clone, Copy)]
pub struct Timer {
    seconds: u16,
}

impl Model for Timer {
    ghost use Rattle.std.specs.Prelude.{ℕ, ◌<◌, ◌^◌};

    ghost Value = { ℕ };

    ghost view = { λ n. n.seconds };

    ghost invariant = { λ n. n.seconds < 2 ^ 10 };

    ghost inverse = { λ n. record { seconds = n } };
}

impl Timer {
    /// How long it runs; None where it doesn't expire.
    pub fn expiry(self) -> Option<Ms>
        ensures found { IsSome result ↔ (self ≢ 1023) }
        ensures value { IfSome result (λ t. t ≡ 1_000 * self) }
    {
        if self.seconds == 1_023 {
            return None;
        }
        Ms::new(1_000 * u64::from(self.seconds))
    }
}

impl Variable for Timer {
    ghost use Rattle.std.specs.Prelude.{refl};
    ghost use Rattle.std.proofs.Common.{arith};
    ghost use Rattle.vars.specs.Variables.{timer};

    ghost codes = { timer };

    ghost WIDTH = { 10 };

    const WIDTH: u32 = 10;

    fn of_number(number: u64) -> Result<Timer, NoValue> {
        Ok(Timer {
            seconds: number as u16,
        })
    }

    fn number(&self) -> u64 {
        u64::from(self.seconds)
    }

    fn has_own_number(&self) -> bool {
        true
    }

    ghost width_is = { refl };

    ghost width_small = { Prim.omega arith };
}

/// T_NVOVTRP: seconds, from 0 to 254; 255 has no end (SUBSET-026, 7.5.1).
#[derive(Clone, Copy)]
pub struct OverrideTime {
    seconds: u8,
}

impl Model for OverrideTime {
    ghost use Rattle.std.specs.Prelude.{ℕ};

    ghost Value = { ℕ };

    ghost view = { λ n. n.seconds };

    ghost inverse = { λ n. record { seconds = n } };
}

impl Variable for OverrideTime {
    ghost use Rattle.std.specs.Prelude.{refl};
    ghost use Rattle.std.proofs.Common.{arith};
    ghost use Rattle.vars.specs.Variables.{t_nvovtrp};

    ghost codes = { t_nvovtrp };

    ghost WIDTH = { 8 };

    const WIDTH: u32 = 8;

    fn of_number(number: u64) -> Result<OverrideTime, NoValue> {
        Ok(OverrideTime {
            seconds: number as u8,
        })
    }

    fn number(&self) -> u64 {
        u64::from(self.seconds)
    }

    fn has_own_number(&self) -> bool {
        true
    }

    ghost width_is = { refl };

    ghost width_small = { Prim.omega arith };
}
