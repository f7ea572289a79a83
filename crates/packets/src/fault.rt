//! The faults of a packet: it is cut short, its L_PACKET is wrong, or a number has no value.
use thiserror::Error;
use vars::NoValue;

/// Why bits begin with no packet (SUBSET-026, 7.4.2; the numbers: this project's profile). The number of a fault is its
/// discriminant.
#[derive(Clone, Copy, Debug, Error)]
pub enum PacketFault {
    /// The bits end within the packet.
    #[error("Truncated")]
    Truncated = 1,
    /// L_PACKET isn't the number of bits of the packet.
    #[error("WrongLength")]
    WrongLength = 2,
    /// A variable has a number that the language keeps spare.
    #[error("Spare")]
    Spare = 3,
    /// A variable has a number outside its range.
    #[error("OutOfRange")]
    OutOfRange = 4,
}

impl From<NoValue> for PacketFault {
    ghost use Rattle.std.specs.Prelude.{◌≡◌};
    ghost use Rattle.packets.specs.Faults.{packet_fault};

    ghost from_gives = { λ x y. y ≡ packet_fault x };

    fn from(fault: NoValue) -> PacketFault {
        match fault {
            NoValue::Spare => PacketFault::Spare,
            NoValue::OutOfRange => PacketFault::OutOfRange,
        }
    }
}
