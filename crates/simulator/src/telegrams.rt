//! The hexadecimal digits of a telegram, as bytes.
ghost use Rattle.std.specs.Prelude.{◌≡◌, ◌⊎◌, IfOk, IfErr};
ghost use Rattle.simulator.specs.Values.{bytes_in};

use crate::ScenarioFault;
use events::TelegramBytes;
use hex::FromHexError;
use std::alloc::Global;

/// The bytes of a telegram in hex.
#[tactic(auto, unfolding(crate::specs::Values::bytes_in))]
pub(crate) fn bytes_of(alloc: Global, text: &str) -> Result<TelegramBytes, ScenarioFault>
    ensures ok { IfOk result (λ bytes. bytes_in text.now ≡ Ok bytes) }
    ensures err { IfErr result (λ fault. (fault ≡ ScenarioFault.NoMemory) ⊎ (bytes_in text.now ≡ Err fault)) }
{
    let bytes = match hex::decode(alloc, text) {
        Ok(bytes) => bytes,
        Err(FromHexError::OutOfMemory) => return Err(ScenarioFault::NoMemory),
        Err(_) => return Err(ScenarioFault::BadHex),
    };
    TelegramBytes::new(bytes.as_slice()).ok_or(ScenarioFault::OutOfRange)
}
