//! Bytes become a telegram: its header, its packets and the end mark are read, or a fault is answered.
ghost use Rattle.std.specs.Prelude.{◌≡◌, ◌+◌, ◌*◌, ◌≤◌, ◌↔◌, ℕ, [], List, Bool, Ok, Err, length, IfOk, OnOk, IfErr, OnErr, Option};
ghost use Rattle.bits.specs.Bits.{bits_of};
ghost use Rattle.bits.specs.Layout.{Begins, Gives, read};
ghost use Rattle.packets.specs.declared.packet.Packet.{Packet};
ghost use Rattle.telegram.specs.Sequences.{BeginsPackets};
ghost use Rattle.telegram.specs.Telegrams.{header, next_packet, reported, Carries, SpellsTelegram, RefusesPackets, RefusesTelegram, RefusesBytes};
ghost use Rattle.telegram.specs.declared.fault.TelegramFault.{TelegramFault};
ghost use Rattle.telegram.specs.declared.message.Telegram.{Telegram};

use crate::fault::TelegramFault;
use crate::header::{HEADER_BITS, field, read_header};
use crate::message::Telegram;
use arrayvec::ArrayVec;
use bits::BitReader;
use packets::{Packet, TELEGRAM_BYTES, read_numbered};
use vars::PacketNumber;

/// Reads the next packet into the place of another one; false at the end mark.
#[inline(always)]
#[tactic(auto, unfolding(crate::specs::Telegrams::next_packet))]
pub(crate) fn read_next<'a>(
    reader: &mut BitReader<'a>,
    out: &mut Packet<'a>,
) -> Result<bool, TelegramFault>
    ensures { Gives (reported out.new) result reader.new (read next_packet reader.old) }
{
    let number: PacketNumber = field(reader, TelegramFault::NoEnd)?;
    if number.get() == 255 {
        return Ok(false);
    }
    read_numbered(reader, number, out)?;
    Ok(true)
}

/// Reads packets up to the end mark. After the header of at most `TELEGRAM_BYTES` there are at most 34 of them, and 34
/// leave no space for the end mark.
fn read_packets<'a>(
    reader: &mut BitReader<'a>,
    packets: &mut ArrayVec<Packet<'a>, 33>,
) -> Result<(), TelegramFault>
    requires empty { packets.old.items ≡ [] }
    requires small { length reader.old + HEADER_BITS ≤ 8 * TELEGRAM_BYTES }
    ensures ok { OnOk result (BeginsPackets packets.new.items reader.old reader.new) }
    ensures err { IfErr result (λ e. (ps : List Packet) × RefusesPackets e ps reader.old) }
{
    'packets: loop {
        let mut packet: Packet<'a> = Packet::default();
        let more = read_next(reader, &mut packet)?;
        if !more {
            return Ok(());
        }
        if packets.len() == 33 {
            return Err(TelegramFault::NoEnd);
        }
        packets.push(packet);
    }
}

/// Puts the telegram that the bytes carry in the place of one with no packets.
fn fill<'a>(bytes: &'a [u8], telegram: &mut Telegram<'a>) -> Result<(), TelegramFault>
    requires empty { telegram.old.packets.items ≡ [] }
    ensures ok { OnOk result (Carries bytes.now telegram.new) }
    ensures err { IfErr result (λ e. RefusesBytes e bytes.now) }
{
    if bytes.len() > TELEGRAM_BYTES {
        return Err(TelegramFault::TooLong);
    }
    let mut reader = BitReader::new(bytes);
    telegram.header = read_header(&mut reader)?;
    read_packets(&mut reader, &mut telegram.packets)?;
    Ok(())
}

/// Puts the telegram that the bytes carry (SUBSET-026, 8.4.2) in the place of another: their bits begin with its
/// header, its packets and the end mark; what follows the end mark is free. A fault is TooLong for more than
/// `TELEGRAM_BYTES`, else the first one in the order of the bits. After a fault the telegram has no packets, and its
/// header means nothing.
pub fn decode_into<'a>(bytes: &'a [u8], telegram: &mut Telegram<'a>) -> Result<(), TelegramFault>
    ensures ok { OnOk result (Carries bytes.now telegram.new) }
    ensures only { (t : Telegram) → Carries bytes.now t → (result ≡ Ok tt) × (telegram.new ≡ t) }
    ensures fault { (e : TelegramFault) → (result ≡ Err e) ↔ RefusesBytes e bytes.now }
    ensures err { OnErr result (telegram.new.packets.items ≡ []) }
    ensures spelled { OnOk result ((bits : List Bool) × SpellsTelegram telegram.new bits) }
{
    telegram.packets.clear();
    if let Err(fault) = fill(bytes, telegram) {
        telegram.packets.clear();
        return Err(fault);
    }
    Ok(())
}

/// The telegram that the bytes carry (SUBSET-026, 8.4.2): their bits begin with its header, its packets and the end
/// mark; what follows the end mark is free. A fault is TooLong for more than `TELEGRAM_BYTES`, else the first one in
/// the order of the bits.
pub fn decode<'a>(bytes: &'a [u8]) -> Result<Telegram<'a>, TelegramFault>
    ensures found { (t : Telegram) → (result ≡ Ok t) ↔ Carries bytes.now t }
    ensures fault { (e : TelegramFault) → (result ≡ Err e) ↔ RefusesBytes e bytes.now }
    ensures spelled { IfOk result (λ t. (bits : List Bool) × SpellsTelegram t bits) }
{
    let mut telegram: Telegram<'a> = Telegram::new();
    decode_into(bytes, &mut telegram)?;
    Ok(telegram)
}
