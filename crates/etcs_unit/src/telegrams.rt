//! The calls of `etcs.h`, and the one of `etcs_unit.h` on a telegram.
ghost use Rattle.std.specs.Prelude.{◌≡◌, ◌↔◌, length};
ghost use Rattle.telegram.specs.Faults.{number_of_fault};
ghost use Rattle.telegram.specs.Telegrams.{Carries, RefusesBytes};
ghost use Rattle.telegram.specs.declared.fault.TelegramFault.{TelegramFault};
ghost use Rattle.telegram.specs.declared.message.Telegram.{Telegram};

use packet_uses::{EtcsPacket, unused_call};
use telegram::TelegramFault;

/// The number of a fault.
fn number_of(fault: TelegramFault) -> u32
    ensures { result ≡ number_of_fault fault }
{
    u32::from(fault.number())
}

/// Whether the bytes carry a telegram (SUBSET-026, 8.4.2): 0, or the number of the fault.
#[unsafe(no_mangle)]
pub extern "C" fn etcs_decode(bytes: &[u8]) -> u32
    ensures carried { (result ≡ 0) ↔ ((t : Telegram) × Carries bytes.now t) }
    ensures refused { (e : TelegramFault) → (result ≡ number_of_fault e) ↔ RefusesBytes e bytes.now }
{
    match telegram::packets(bytes) {
        Ok(_) => 0,
        Err(fault) => number_of(fault),
    }
}

/// The number of packets of the telegram that the bytes carry, 0 where they carry none.
#[unsafe(no_mangle)]
pub extern "C" fn etcs_packet_count(bytes: &[u8]) -> u32
    ensures carried { (t : Telegram) → Carries bytes.now t → result ≡ length t.packets.items }
    ensures refused { (e : TelegramFault) → RefusesBytes e bytes.now → result ≡ 0 }
{
    match telegram::packets(bytes) {
        Ok(packets) => packets.len(),
        Err(_) => 0,
    }
}

/// Reports a packet of a telegram that a unit doesn't use, from 0 on.
#[unsafe(no_mangle)]
pub extern "C" fn etcs_telegram_unused_(
    bytes: &[u8],
    mode: u32,
    direction: u32,
    index: u32,
    reported: &mut EtcsPacket,
) -> u32 {
    unused_call(bytes, mode, direction, index, reported)
}
