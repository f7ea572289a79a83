//! A packet with the bytes, and the bit in the first of them, where it stands in its telegram.
ghost use Rattle.std.specs.Prelude.{◌≡◌, ◌<◌, []};

use packets::Packet;
use std::marker::Model;

/// A packet of a telegram, and where its bits lie in the bytes of the telegram (SUBSET-026, 8.4.2).
#[derive(Drop)]
pub struct PacketInPlace<'a> {
    pub(crate) packet: Packet<'a>,
    pub(crate) bytes: &'a [u8],
    pub(crate) offset: u32,
}

impl<'a> Model for PacketInPlace<'a> {
    ghost use Rattle.std.specs.Prelude.{◌<◌};
    ghost use Rattle.telegram.specs.Walks.{Located};

    ghost Value = { Located };

    ghost view = { λ p. record { packet = p.packet; bytes = p.bytes.now; offset = p.offset } };

    ghost invariant = { λ p. p.offset < 8 };
}

impl<'a> PacketInPlace<'a> {
    /// A place with no bytes, to be filled.
    pub fn new() -> Self
        ensures { result.bytes ≡ [] }
    {
        PacketInPlace {
            packet: Packet::default(),
            bytes: &[],
            offset: 0,
        }
    }

    /// The packet.
    pub fn packet(&self) -> &Packet<'a>
        ensures { result.now ≡ self.now.packet }
    {
        &self.packet
    }

    /// The fewest bytes of the telegram that hold the bits of the packet, not copied.
    pub fn bytes(&self) -> &'a [u8]
        ensures { result.now ≡ self.now.bytes }
    {
        self.bytes
    }

    /// The place of the first bit of the packet in the first of the bytes: 0 for the highest bit, 7 for the lowest.
    pub fn offset(&self) -> u32
        ensures value { result ≡ self.now.offset }
        ensures bound { result < 8 }
    {
        self.offset
    }
}

impl<'a> Default for PacketInPlace<'a> {
    fn default() -> PacketInPlace<'a> {
        PacketInPlace::new()
    }
}
