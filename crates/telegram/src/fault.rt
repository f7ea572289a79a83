//! The faults of a telegram, those of its packets among them.
ghost use Rattle.std.specs.Prelude.{◌≡◌};
ghost use Rattle.telegram.specs.Faults.{number_of_fault, name_of_fault};

use packets::PacketFault;
use thiserror::Error;
use vars::NoValue;

/// Why bytes carry no telegram (SUBSET-026, 8.4.2; the numbers: this project's profile).
#[derive(Clone, Copy, Debug, Error)]
pub enum TelegramFault {
    /// The bits end within the header or a packet.
    #[error("Truncated")]
    Truncated = 1,
    /// L_PACKET isn't the number of bits of its packet.
    #[error("WrongLength")]
    WrongLength = 2,
    /// A variable has a number that the language keeps spare.
    #[error("Spare")]
    Spare = 3,
    /// A variable has a number outside its range.
    #[error("OutOfRange")]
    OutOfRange = 4,
    /// M_VERSION isn't 16.
    #[error("WrongVersion")]
    WrongVersion = 5,
    /// Q_UPDOWN isn't 1.
    #[error("NotUplink")]
    NotUplink = 6,
    /// Q_MEDIA isn't 0.
    #[error("NotBalise")]
    NotBalise = 7,
    /// The bits end before the end mark.
    #[error("NoEnd")]
    NoEnd = 8,
    /// There are more than `packets::TELEGRAM_BYTES` bytes.
    #[error("TooLong")]
    TooLong = 9,
}

impl TelegramFault {
    /// The number by which the fault is reported, its discriminant.
    pub fn number(self) -> u8
        ensures { result ≡ number_of_fault self }
    {
        self as u8
    }

    /// The name by which the fault is reported.
    pub fn name(self) -> &'static str
        ensures { result.now ≡ name_of_fault self }
    {
        match self {
            TelegramFault::Truncated => "Truncated",
            TelegramFault::WrongLength => "WrongLength",
            TelegramFault::Spare => "Spare",
            TelegramFault::OutOfRange => "OutOfRange",
            TelegramFault::WrongVersion => "WrongVersion",
            TelegramFault::NotUplink => "NotUplink",
            TelegramFault::NotBalise => "NotBalise",
            TelegramFault::NoEnd => "NoEnd",
            TelegramFault::TooLong => "TooLong",
        }
    }
}

impl From<NoValue> for TelegramFault {
    ghost use Rattle.std.specs.Prelude.{◌≡◌};
    ghost use Rattle.telegram.specs.Faults.{value_fault};

    ghost from_gives = { λ x y. y ≡ value_fault x };

    fn from(fault: NoValue) -> TelegramFault {
        match fault {
            NoValue::Spare => TelegramFault::Spare,
            NoValue::OutOfRange => TelegramFault::OutOfRange,
        }
    }
}

impl From<PacketFault> for TelegramFault {
    ghost use Rattle.std.specs.Prelude.{◌≡◌};
    ghost use Rattle.telegram.specs.Faults.{telegram_fault};

    ghost from_gives = { λ x y. y ≡ telegram_fault x };

    fn from(fault: PacketFault) -> TelegramFault {
        match fault {
            PacketFault::Truncated => TelegramFault::Truncated,
            PacketFault::WrongLength => TelegramFault::WrongLength,
            PacketFault::Spare => TelegramFault::Spare,
            PacketFault::OutOfRange => TelegramFault::OutOfRange,
        }
    }
}
