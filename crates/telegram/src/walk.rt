//! A walk over a tested telegram, which reads one packet after another from its bytes.
ghost use Rattle.std.specs.Prelude.{◌≡◌, ◌+◌, ◌*◌, ◌/◌, ◌≤◌, [], ◌∷◌, length, drop, ◌↔◌, IsTrue};
ghost use Rattle.std.specs.Bool.{OnTrue, OnFalse};
ghost use Rattle.std.specs.List.{slice_range};
ghost use Rattle.std.specs.Iterator.{YieldsFirst, item_count};
ghost use Rattle.bits.specs.Bits.{bits_of};
ghost use Rattle.telegram.specs.Telegrams.{header_bits};
ghost use Rattle.telegram.specs.Walks.{packets_of, packets_in, HoldPackets};

use crate::decoding::read_next;
use crate::header::{HEADER_BITS, Header};
use crate::place::PacketInPlace;
use bits::BitReader;
use std::marker::Model;

/// The packets of a telegram whose bytes were found whole, read one by one where they lie (SUBSET-026, 8.4.2).
#[derive(Drop)]
pub struct Packets<'a> {
    pub(crate) header: Header,
    pub(crate) bytes: &'a [u8],
    pub(crate) reader: BitReader<'a>,
    /// The place of the next packet in the bits of the bytes.
    pub(crate) start: u32,
    /// The number of packets that are still to come.
    pub(crate) left: u32,
}

impl<'a> Model for Packets<'a> {
    ghost use Rattle.std.specs.Prelude.{◌≡◌, ◌≤◌, ◌+◌, ◌*◌, length};
    ghost use Rattle.packets.specs.Limits.{telegram_bytes};
    ghost use Rattle.telegram.specs.Walks.{Walk, located_from, packets_in};

    ghost Value = { Walk };

    ghost view = { λ w. record { header = w.header; items = located_from w.bytes.now w.start (packets_in w.left w.reader) } };

    // The reader is at the next packet, and as many packets are read as are left.
    ghost invariant = { λ w. (length w.bytes.now ≤ telegram_bytes)
        × (w.start + length w.reader ≡ 8 * length w.bytes.now)
        × (length (packets_in w.left w.reader) ≡ w.left) };
}

/// The fewest bytes that hold the bits from one place up to another.
fn bytes_between(bytes: &[u8], start: u32, end: u32) -> &[u8]
    requires order { start ≤ end }
    requires within { end ≤ 8 * length bytes.now }
    ensures { result.now ≡ slice_range bytes.now (start / 8) ((end + 7) / 8) }
{
    &bytes[(start / 8) as usize..end.div_ceil(8) as usize]
}

impl<'a> Packets<'a> {
    /// So many packets after the header of a telegram that was tested, read again from its bytes.
    pub(crate) fn after_header(header: Header, bytes: &'a [u8], count: u32) -> Self
        requires { HoldPackets count bytes.now }
        ensures packets { packets_of result.items ≡ packets_in count (drop header_bits (bits_of bytes.now)) }
        ensures header { result.header ≡ header }
    {
        let mut reader = BitReader::new(bytes);
        let _ = reader.run(HEADER_BITS);
        Packets {
            header,
            bytes,
            reader,
            start: HEADER_BITS,
            left: count,
        }
    }

    /// The header of the telegram.
    pub fn header(&self) -> Header
        ensures { result ≡ self.now.header }
    {
        self.header
    }

    /// How many packets are left.
    pub fn len(&self) -> u32
        ensures { result ≡ length self.now.items }
    {
        self.left
    }

    /// Whether no packet is left.
    pub fn is_empty(&self) -> bool
        ensures { IsTrue result ↔ (self.now.items ≡ []) }
    {
        self.len() == 0
    }

    /// Puts the next packet in the place of another one: what `next` gives, but read where it is to stay. False where
    /// no packet is left, and then the place keeps what it has.
    pub fn next_into(&mut self, item: &mut PacketInPlace<'a>) -> bool
        ensures some { OnTrue result (self.old.items ≡ item.new ∷ self.new.items) }
        ensures none { OnFalse result ((self.old.items ≡ []) × (self.new.items ≡ []) × (item.new ≡ item.old)) }
        ensures header { self.new.header ≡ self.old.header }
    {
        if self.left == 0 {
            return false;
        }
        let Ok(more) = read_next(&mut self.reader, &mut item.packet) else {
            return false;
        };
        if !more {
            return false;
        }
        let end = 8 * self.bytes.len() as u32 - self.reader.remaining() as u32;
        item.bytes = bytes_between(self.bytes, self.start, end);
        item.offset = self.start % 8;
        self.start = end;
        self.left -= 1;
        true
    }
}

impl<'a> Iterator for Packets<'a> {
    type Item = PacketInPlace<'a>;

    ghost next_gives = { YieldsFirst (λ w. w.items) };

    ghost remaining = { item_count (λ w. w.items) };

    fn next(&mut self) -> Option<PacketInPlace<'a>> {
        if self.left == 0 {
            return None;
        }
        let mut item: PacketInPlace<'a> = PacketInPlace::new();
        if !self.next_into(&mut item) {
            return None;
        }
        Some(item)
    }
}

/// A walk with no packets.
impl<'a> Default for Packets<'a> {
    ghost is_default = { λ w. w.items ≡ [] };

    fn default() -> Packets<'a> {
        Packets {
            header: Header::default(),
            bytes: &[],
            reader: BitReader::new(&[]),
            start: 0,
            left: 0,
        }
    }
}
