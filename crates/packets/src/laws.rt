//! The law that a sink takes exactly the fields of a packet, in order.
ghost use Rattle.std.specs.Prelude.{◌≡◌, ℕ};
ghost use Rattle.bits.specs.Writing.{each_field};
ghost use Rattle.packets.specs.Packets.{packet_taken, packet_field_list};
ghost use Rattle.packets.specs.declared.packet.Packet.{Packet};

use crate::sink::FieldSink;

/// Whatever sink a packet is handed to takes the list of the packet's fields, one after another, and nothing else: the
/// name of each variable, the number of its bits and the number that they spell.
#[tactic(auto, using(crate::proofs::PacketListed::packet_is_listed))]
pub fn sinks_take_packet_fields<S: FieldSink>()
    ensures { (reported : ℕ) (p : Packet) (s : S.Seen) → packet_taken S.took reported p s ≡ each_field S.took (packet_field_list reported p) s }
{}
