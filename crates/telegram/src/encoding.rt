//! A telegram becomes bytes, where 832 bits hold it.
ghost use Rattle.std.specs.Prelude.{◌≡◌, ◌+◌, ◌*◌, ◌≤◌, ◌↔◌, ◌++◌, List, Bool, length, take, IsOk, IfOk, OnOk, OnErr};
ghost use Rattle.bits.specs.Writing.{appended};
ghost use Rattle.telegram.specs.Encodings.{Encoded};
ghost use Rattle.telegram.specs.Telegrams.{header as header_layout, Carries, SpellsPackets, SpellsTelegram};

use crate::header::{HEADER_BITS, Header};
use crate::message::Telegram;
use bits::{BitWriter, Full};
use packets::{Packet, TELEGRAM_BYTES, write_packet};
use thiserror::Error;

/// The telegram has more bits than `TELEGRAM_BYTES` have, which are 832 (SUBSET-026, 8.4.2).
#[derive(Clone, Copy, Debug, Error)]
#[error("TooLong")]
pub struct TooLong;

impl From<Full> for TooLong {
    fn from(_full: Full) -> TooLong {
        TooLong
    }
}

/// Writes the header.
fn write_header(header: &Header, writer: &mut BitWriter<TELEGRAM_BYTES>)
    requires { length writer.old + HEADER_BITS ≤ 8 * TELEGRAM_BYTES }
    ensures { writer.new ≡ appended header_layout header.now writer.old }
{
    match header.fields(writer) {
        Ok(()) => {}
    }
}

/// Writes packets that have a spelling, and the end mark.
fn write_packets(packets: &[Packet<'_>], writer: &mut BitWriter<TELEGRAM_BYTES>) -> Result<(), Full>
    requires { (bits : List Bool) × SpellsPackets packets.now bits }
    ensures space { (bits : List Bool) → SpellsPackets packets.now bits → (IsOk result ↔ (length writer.old + length bits ≤ 8 * TELEGRAM_BYTES)) }
    ensures ok { OnOk result ((bits : List Bool) → SpellsPackets packets.now bits → writer.new ≡ writer.old ++ bits) }
{
    for packet in packets {
        write_packet(packet, writer)?;
    }
    writer.put(8, 255)?;
    Ok(())
}

/// Writes a telegram (SUBSET-026, 8.4.2) into the front of the array, padded with zero bits to whole bytes, and returns
/// how many bytes these are; decoded again, they give the telegram. TooLong where it has more than 832 bits, and then
/// nothing is written. The caller owes a telegram that has a spelling, as each that was decoded has
/// (`Telegram::has_spelling`).
pub fn encode(telegram: &Telegram<'_>, out: &mut [u8; TELEGRAM_BYTES]) -> Result<usize, TooLong>
    requires { (bits : List Bool) × SpellsTelegram telegram.now bits }
    ensures space { (bits : List Bool) → SpellsTelegram telegram.now bits → (IsOk result ↔ (length bits ≤ 8 * TELEGRAM_BYTES)) }
    ensures ok { IfOk result (λ n. Encoded telegram.now out.old out.new n) }
    ensures again { IfOk result (λ n. Carries (take n out.new) telegram.now) }
    ensures err { OnErr result (out.new ≡ out.old) }
{
    let mut writer: BitWriter<TELEGRAM_BYTES> = BitWriter::new();
    write_header(&telegram.header, &mut writer);
    write_packets(telegram.packets.as_slice(), &mut writer)?;
    Ok(writer.copy_to(out))
}
