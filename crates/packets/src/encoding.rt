//! A packet is handed to a sink or written as bits, NID_PACKET first.
ghost use Rattle.std.specs.Prelude.{◌≡◌, ◌+◌, ◌*◌, ◌<◌, ◌≤◌, ◌^◌, ◌↔◌, ◌++◌, List, Bool, length, IsOk, OnOk, OnErr};
ghost use Rattle.bits.specs.Layout.{Spells};
ghost use Rattle.bits.specs.Writing.{named};
ghost use Rattle.bits.specs.declared.name.VariableName.TheVariants as names;
ghost use Rattle.packets.specs.Packets.{packet as packet_layout, length_of, number_of, packet_taken};

use crate::packet::Packet;
use crate::sink::{FieldSink, put};
use bits::{BitWriter, Full, VariableName};

/// Hands a whole packet to a sink, NID_PACKET first; stops with the sink's error where it takes no more. The caller
/// owes the packet's own length in bits (`Packet::length`), and space in the sink. Where L_PACKET can't hold the
/// length, the packet has no spelling, and nothing is said of what the sink takes.
pub fn hand_packet<S: FieldSink>(
    packet: &Packet<'_>,
    length: u64,
    sink: &mut S,
) -> Result<(), S::Error>
    requires length { length ≡ length_of packet.now }
    requires space { S.held sink.old + length ≤ S.most }
    ensures { length < 2 ^ 13 → OnOk result (S.seen sink.new ≡ packet_taken S.took length packet.now (S.took (S.seen sink.old) (named names.NidPacket 8 (number_of packet.now)))) }
{
    put(sink, VariableName::NidPacket, &packet.number())?;
    packet.fields(length, sink)
}

/// Writes a packet (SUBSET-026, 7.4.2). Full where its bits do not fit, and then nothing is written. The caller owes a
/// packet that has a spelling, as each that was read has (`Packet::has_spelling`).
pub fn write_packet<const N: usize>(
    packet: &Packet<'_>,
    writer: &mut BitWriter<N>,
) -> Result<(), Full>
    requires { (bits : List Bool) × Spells packet_layout packet.now bits }
    ensures space { (bits : List Bool) → Spells packet_layout packet.now bits → IsOk result ↔ (length writer.old + length bits ≤ 8 * N) }
    ensures ok { OnOk result ((bits : List Bool) → Spells packet_layout packet.now bits → writer.new ≡ writer.old ++ bits) }
    ensures err { OnErr result (writer.new ≡ writer.old) }
{
    let length = packet.length();
    if !writer.has_space(length) {
        return Err(Full);
    }
    match hand_packet(packet, length, writer) {
        Ok(()) => Ok(()),
    }
}
