//! The faults for which a scenario is refused.
ghost use Rattle.std.specs.Prelude.{◌≡◌};
ghost use Rattle.simulator.specs.FaultNumbers.{fault_number, fault_name};

use std::alloc::{AllocError, AllocFailed};
use thiserror::Error;
use units::NoMemory;

/// Why a scenario is refused (this project's profile).
#[derive(Clone, Copy, Debug, Error)]
pub enum ScenarioFault {
    /// The bytes are no JSON value.
    #[error("NotJson")]
    NotJson = 1,
    /// A key is missing or one too many, a value has the wrong kind, or a list the wrong count.
    #[error("Shape")]
    Shape = 2,
    /// A number or the length of a text is outside its limits.
    #[error("OutOfRange")]
    OutOfRange = 3,
    /// The text of a telegram isn't hexadecimal digits, two a byte.
    #[error("BadHex")]
    BadHex = 4,
    /// Memory was refused.
    #[error("NoMemory")]
    NoMemory = 5,
}

impl ScenarioFault {
    /// The number by which the refusal is reported.
    pub fn number(self) -> u8
        ensures { result ≡ fault_number self }
    {
        self as u8
    }

    /// The name by which the refusal is reported.
    pub fn name(self) -> &'static str
        ensures { result.now ≡ fault_name self }
    {
        match self {
            ScenarioFault::NotJson => "NotJson",
            ScenarioFault::Shape => "Shape",
            ScenarioFault::OutOfRange => "OutOfRange",
            ScenarioFault::BadHex => "BadHex",
            ScenarioFault::NoMemory => "NoMemory",
        }
    }
}

impl From<AllocError> for ScenarioFault {
    ghost use Rattle.std.specs.Prelude.{◌≡◌};
    ghost use Rattle.simulator.specs.declared.fault.ScenarioFault.TheVariants.{NoMemory};

    ghost from_gives = { λ _ fault. fault ≡ NoMemory };

    fn from(_: AllocError) -> Self {
        ScenarioFault::NoMemory
    }
}

impl<T: Drop> From<AllocFailed<T>> for ScenarioFault {
    ghost use Rattle.std.specs.Prelude.{◌≡◌};
    ghost use Rattle.simulator.specs.declared.fault.ScenarioFault.TheVariants.{NoMemory};

    ghost from_gives = { λ _ fault. fault ≡ NoMemory };

    fn from(_: AllocFailed<T>) -> Self {
        ScenarioFault::NoMemory
    }
}

impl From<NoMemory> for ScenarioFault {
    ghost use Rattle.std.specs.Prelude.{◌≡◌};
    ghost use Rattle.simulator.specs.declared.fault.ScenarioFault.TheVariants as a_fault;

    ghost from_gives = { λ _ fault. fault ≡ a_fault.NoMemory };

    fn from(_: NoMemory) -> Self {
        ScenarioFault::NoMemory
    }
}
