//! A whole telegram is tested, and none of its packets is kept.
ghost use Rattle.std.specs.Prelude.{◌≡◌, ◌+◌, ◌*◌, ◌≤◌, ◌↔◌, List, Ok, Err, length, IfOk, IfErr};
ghost use Rattle.packets.specs.declared.packet.Packet.{Packet};
ghost use Rattle.telegram.specs.Sequences.{BeginsPackets};
ghost use Rattle.telegram.specs.Telegrams.{RefusesPackets, RefusesBytes};
ghost use Rattle.telegram.specs.Walks.{Walk, IsWalkOf};
ghost use Rattle.telegram.specs.declared.fault.TelegramFault.{TelegramFault};

use crate::decoding::read_next;
use crate::fault::TelegramFault;
use crate::header::{HEADER_BITS, read_header};
use crate::walk::Packets;
use bits::BitReader;
use packets::{Packet, TELEGRAM_BYTES};

/// Reads packets up to the end mark, and answers how many there are.
#[inline(always)]
fn count_packets<'a>(reader: &mut BitReader<'a>) -> Result<u32, TelegramFault>
    requires small { length reader.old + HEADER_BITS ≤ 8 * TELEGRAM_BYTES }
    ensures ok { IfOk result (λ n. (ps : List Packet) × (length ps ≡ n) × BeginsPackets ps reader.old reader.new) }
    ensures err { IfErr result (λ e. (ps : List Packet) × RefusesPackets e ps reader.old) }
{
    let mut packet: Packet<'a> = Packet::default();
    let mut count = 0;
    'packets: loop {
        let more = read_next(reader, &mut packet)?;
        if !more {
            return Ok(count);
        }
        count += 1;
    }
}

/// The packets of the telegram that the bytes carry (SUBSET-026, 8.4.2), to be read one by one where they lie. The
/// whole telegram is tested here, and a fault is the one that `decode` answers.
pub fn packets<'a>(bytes: &'a [u8]) -> Result<Packets<'a>, TelegramFault>
    ensures found { (w : Walk) → (result ≡ Ok w) ↔ IsWalkOf bytes.now w }
    ensures fault { (e : TelegramFault) → (result ≡ Err e) ↔ RefusesBytes e bytes.now }
{
    if bytes.len() > TELEGRAM_BYTES {
        return Err(TelegramFault::TooLong);
    }
    let mut reader = BitReader::new(bytes);
    let header = read_header(&mut reader)?;
    let first = reader.fork();
    let left = count_packets(&mut reader)?;
    Ok(Packets {
        header,
        bytes,
        reader: first,
        start: HEADER_BITS,
        left,
    })
}
