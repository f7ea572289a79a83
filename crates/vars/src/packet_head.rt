//! The head of a packet: NID_PACKET, Q_DIR (untested where the packet is skipped) and L_PACKET.
ghost use Rattle.std.specs.Prelude.{◌≡◌, ◌<◌, ◌^◌};

use crate::variable::{NoValue, Variable};
use std::marker::Model;

/// NID_PACKET: which packet it is (SUBSET-026, 7.5.1).
#[derive(Clone, Copy)]
pub struct PacketNumber {
    number: u8,
}

impl Model for PacketNumber {
    ghost use Rattle.std.specs.Prelude.{ℕ};

    ghost Value = { ℕ };

    ghost view = { λ n. n.number };

    ghost inverse = { λ n. record { number = n } };
}

impl PacketNumber {
    /// The number, 255 being the end of a telegram.
    pub fn get(self) -> u8
        ensures { result ≡ self }
    {
        self.number
    }
}

impl Variable for PacketNumber {
    ghost use Rattle.std.specs.Prelude.{refl};
    ghost use Rattle.std.proofs.Common.{arith};
    ghost use Rattle.vars.specs.Variables.{nid_packet};

    ghost codes = { nid_packet };

    ghost WIDTH = { 8 };

    const WIDTH: u32 = 8;

    fn of_number(number: u64) -> Result<PacketNumber, NoValue> {
        Ok(PacketNumber {
            number: number as u8,
        })
    }

    fn number(&self) -> u64 {
        u64::from(self.number)
    }

    fn has_own_number(&self) -> bool {
        true
    }

    ghost width_is = { refl };

    ghost width_small = { Prim.omega arith };
}

/// Q_DIR: the running direction over the group in which a packet is valid (SUBSET-026, 7.5.1).
#[derive(Clone, Copy)]
pub enum ValidityDirection {
    /// Only where the group is passed in its reverse direction.
    Reverse,
    /// Only where the group is passed in its nominal direction.
    Nominal,
    /// In both directions.
    Both,
}

impl Variable for ValidityDirection {
    ghost use Rattle.std.specs.Prelude.{refl};
    ghost use Rattle.std.proofs.Common.{arith};
    ghost use Rattle.vars.specs.Variables.{q_dir};

    ghost codes = { q_dir };

    ghost WIDTH = { 2 };

    const WIDTH: u32 = 2;

    #[tactic(auto, unfolding(crate::specs::Values::direction_of))]
    fn of_number(number: u64) -> Result<ValidityDirection, NoValue> {
        match number {
            0 => Ok(ValidityDirection::Reverse),
            1 => Ok(ValidityDirection::Nominal),
            2 => Ok(ValidityDirection::Both),
            _ => Err(NoValue::Spare),
        }
    }

    fn number(&self) -> u64 {
        match self {
            ValidityDirection::Reverse => 0,
            ValidityDirection::Nominal => 1,
            ValidityDirection::Both => 2,
        }
    }

    #[tactic(auto, using(crate::proofs::OwnNumbers::q_dir_own))]
    fn has_own_number(&self) -> bool {
        true
    }

    ghost width_is = { refl };

    ghost width_small = { Prim.omega arith };
}

/// Q_DIR of a packet that is skipped: any number, the spare one too (SUBSET-026, 7.5.1).
#[derive(Clone, Copy)]
pub struct UntestedDirection {
    number: u8,
}

impl Model for UntestedDirection {
    ghost use Rattle.std.specs.Prelude.{ℕ, ◌<◌, ◌^◌};

    ghost Value = { ℕ };

    ghost view = { λ n. n.number };

    ghost invariant = { λ n. n.number < 2 ^ 2 };

    ghost inverse = { λ n. record { number = n } };
}

impl Variable for UntestedDirection {
    ghost use Rattle.std.specs.Prelude.{refl};
    ghost use Rattle.std.proofs.Common.{arith};
    ghost use Rattle.vars.specs.Variables.{untested_direction};

    ghost codes = { untested_direction };

    ghost WIDTH = { 2 };

    const WIDTH: u32 = 2;

    fn of_number(number: u64) -> Result<UntestedDirection, NoValue> {
        Ok(UntestedDirection {
            number: number as u8,
        })
    }

    fn number(&self) -> u64 {
        u64::from(self.number)
    }

    fn has_own_number(&self) -> bool {
        true
    }

    ghost width_is = { refl };

    ghost width_small = { Prim.omega arith };
}

/// L_PACKET: the length of a packet in bits, its number included, from 0 to 8,191 (SUBSET-026, 7.5.1).
#[derive(Clone, Copy)]
pub struct PacketLength {
    bits: u16,
}

impl Model for PacketLength {
    ghost use Rattle.std.specs.Prelude.{ℕ, ◌<◌, ◌^◌};

    ghost Value = { ℕ };

    ghost view = { λ n. n.bits };

    ghost invariant = { λ n. n.bits < 2 ^ 13 };

    ghost inverse = { λ n. record { bits = n } };
}

impl PacketLength {
    /// The number of bits.
    pub fn bits(self) -> u16
        ensures value { result ≡ self }
        ensures bound { result < 2 ^ 13 }
    {
        self.bits
    }
}

impl Variable for PacketLength {
    ghost use Rattle.std.specs.Prelude.{refl};
    ghost use Rattle.std.proofs.Common.{arith};
    ghost use Rattle.vars.specs.Variables.{l_packet};

    ghost codes = { l_packet };

    ghost WIDTH = { 13 };

    const WIDTH: u32 = 13;

    fn of_number(number: u64) -> Result<PacketLength, NoValue> {
        Ok(PacketLength {
            bits: number as u16,
        })
    }

    fn number(&self) -> u64 {
        u64::from(self.bits)
    }

    fn has_own_number(&self) -> bool {
        true
    }

    ghost width_is = { refl };

    ghost width_small = { Prim.omega arith };
}
