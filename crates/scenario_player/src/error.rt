//! Why a scenario isn't played.
ghost use Rattle.std.specs.Prelude.{◌≡◌};
ghost use Rattle.scenario_player.specs.Refusals.{error_of};

use simulator::ScenarioFault;
use thiserror::Error;

/// Why a scenario isn't played (this project's profile).
#[derive(Clone, Copy, Debug, Error)]
pub enum PlayError {
    /// No journal has so many slots.
    #[error("BadSlots")]
    BadSlots,
    /// The scenario has this fault, which is not NoMemory.
    #[error("{0}")]
    Scenario(ScenarioFault),
    /// Memory was refused.
    #[error("NoMemory")]
    NoMemory,
}

/// The error for a fault of the simulator.
pub(crate) fn error_of(fault: ScenarioFault) -> PlayError
    ensures { result ≡ error_of fault }
{
    match fault {
        ScenarioFault::NoMemory => PlayError::NoMemory,
        ScenarioFault::NotJson
        | ScenarioFault::Shape
        | ScenarioFault::OutOfRange
        | ScenarioFault::BadHex => PlayError::Scenario(fault),
    }
}
