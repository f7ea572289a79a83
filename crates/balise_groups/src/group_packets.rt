//! A group's packets, walked through in order of place and cut at infill (packet 136).
ghost use Rattle.std.specs.Prelude.{◌≡◌, ◌++◌, ◌∷◌, List, [], length};
ghost use Rattle.std.specs.Bool.{OnTrue, OnFalse};
ghost use Rattle.std.specs.Iterator.{YieldsFirstBy, item_count};
ghost use Rattle.telegram.specs.Walks.{Walk, packets_of};
ghost use Rattle.balise_groups.specs.Description.{before_infill, used_of};

use packets::Packet;
use std::marker::Model;
use telegram::{Gathered, PacketInPlace, Packets, PacketsOfEach};

/// NID_PACKET of infill: neither it nor what follows it is used.
const INFILL: u8 = 136;

/// The packets of a group (SUBSET-026, 3.4): those of its telegrams in order of place, of each those before its first
/// packet 136.
#[derive(Drop)]
pub struct GroupPackets {
    pub(crate) telegrams: Gathered,
}

impl Model for GroupPackets {
    ghost use Rattle.std.specs.Prelude.{List};
    ghost use Rattle.packets.specs.declared.packet.Packet.{Packet};
    ghost use Rattle.balise_groups.specs.Description.{used_of};

    ghost Value = { List Packet };

    ghost view = { λ p. used_of p.telegrams };
}

impl GroupPackets {
    /// The packets, to be read one by one where they lie.
    pub fn iter(&self) -> PacketsInTurn<'_>
        ensures { result ≡ self.now }
    {
        PacketsInTurn {
            packets: Packets::default(),
            telegrams: self.telegrams.iter(),
        }
    }
}

/// A walk over the packets of a group, in order, in their bytes as they came. It takes no memory.
#[derive(Drop)]
pub struct PacketsInTurn<'a> {
    /// What is still to come of a telegram, up to its first packet 136.
    packets: Packets<'a>,
    /// The telegrams after it.
    telegrams: PacketsOfEach<'a>,
}

impl<'a> Model for PacketsInTurn<'a> {
    ghost use Rattle.std.specs.Prelude.{List, ◌++◌};
    ghost use Rattle.packets.specs.declared.packet.Packet.{Packet};
    ghost use Rattle.telegram.specs.Walks.{packets_of};
    ghost use Rattle.balise_groups.specs.Description.{before_infill, used_of};

    ghost Value = { List Packet };

    ghost view = { λ w. before_infill (packets_of w.packets.items) ++ used_of w.telegrams };
}

impl<'a> PacketsInTurn<'a> {
    /// Puts the next packet in the place of another one: what `next` gives, but read where it is to stay. False where
    /// no packet is left.
    pub fn next_into(&mut self, item: &mut PacketInPlace<'a>) -> bool
        ensures some { OnTrue result (self.old ≡ item.new.packet ∷ self.new) }
        ensures none { OnFalse result ((self.old ≡ []) × (self.new ≡ [])) }
    {
        'telegrams: loop {
            if self.packets.next_into(item) && item.packet().number().get() != INFILL {
                return true;
            }
            let Some(packets) = self.telegrams.next_telegram() else {
                self.packets = Packets::default();
                return false;
            };
            self.packets = packets;
        }
    }
}

impl<'a> Iterator for PacketsInTurn<'a> {
    type Item = PacketInPlace<'a>;

    ghost next_gives = { YieldsFirstBy (λ item. item.packet) (λ packets. packets) };

    ghost remaining = { item_count (λ packets. packets) };

    fn next(&mut self) -> Option<PacketInPlace<'a>> {
        let mut item: PacketInPlace<'a> = PacketInPlace::new();
        if !self.next_into(&mut item) {
            return None;
        }
        Some(item)
    }
}
