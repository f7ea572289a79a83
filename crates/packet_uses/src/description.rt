//! Each packet of a telegram, with what becomes of it.
ghost use Rattle.std.specs.Prelude.{◌≡◌, ◌+◌, ◌*◌, ◌≤◌, ◌^◌, ◌++◌, length};
ghost use Rattle.packet_uses.specs.Description.{DescribesPackets, refused_of, reported_from};

use crate::fate::{Fate, INFILL, fate_of};
use arrayvec::ArrayVec;
use mode_table::Mode;
use packets::Packet;
use telegram::{Telegram, decode_into};
use track_packets::{MOST_LISTED, PacketPlace, packets_in_order};
use vars::LinkOrientation;

/// How many packets are reported at most: as many as `track_packets` lists of a telegram that is refused.
pub const MOST_REPORTED: usize = MOST_LISTED;

/// The bits of a telegram's header (SUBSET-026, 8.4.2).
const HEADER_BITS: u64 = 50;

/// A packet of a telegram, and what becomes of it.
#[derive(Clone, Copy, Default)]
pub struct ReportedPacket {
    /// NID_PACKET.
    pub number: u8,
    /// The place of its first bit in the telegram, from 0.
    pub start: u64,
    /// Its length in bits.
    pub length: u64,
    /// What becomes of it.
    pub fate: Fate,
}

/// Reports packets one after another, the first of them at a place.
fn describe_read(
    packets: &[Packet<'_>],
    mode: Mode,
    direction: Option<LinkOrientation>,
    is_after_infill: bool,
    start: u64,
    reported: &mut ArrayVec<ReportedPacket, MOST_REPORTED>,
)
    requires space { length reported.old.items + length packets.now ≤ 34 }
    requires near { start + 2 ^ 33 * length packets.now ≤ 2 ^ 40 }
    ensures { reported.new.items ≡ reported.old.items ++ reported_from mode direction is_after_infill start packets.now }
{
    let Some((packet, others)) = packets.split_first() else {
        return;
    };
    let number = packet.number().get();
    let length = packet.length();
    reported.push(ReportedPacket {
        number,
        start,
        length,
        fate: fate_of(packet, mode, direction, is_after_infill),
    });
    let is_after_infill = is_after_infill || number == INFILL;
    describe_read(
        others,
        mode,
        direction,
        is_after_infill,
        start + length,
        reported,
    );
}

/// Reports the packets of a telegram that is refused.
fn describe_refused(places: &[PacketPlace], reported: &mut ArrayVec<ReportedPacket, MOST_REPORTED>)
    requires { length reported.old.items + length places.now ≤ 34 }
    ensures { reported.new.items ≡ reported.old.items ++ refused_of places.now }
{
    let Some((place, others)) = places.split_first() else {
        return;
    };
    reported.push(ReportedPacket {
        number: place.number,
        start: u64::from(place.start),
        length: u64::from(place.length),
        fate: Fate::Refused,
    });
    describe_refused(others, reported);
}

/// The packets of a telegram in their order, each with what becomes of it in a mode, where its group is accepted and is
/// passed in this direction (None where it isn't known). Of a telegram that is refused they are those that
/// `track_packets` lists by L_PACKET, and all are refused.
pub fn reported_packets(
    bytes: &[u8],
    mode: Mode,
    direction: Option<LinkOrientation>,
) -> ArrayVec<ReportedPacket, MOST_REPORTED>
    ensures { DescribesPackets bytes.now mode direction result.items }
{
    let mut reported: ArrayVec<ReportedPacket, MOST_REPORTED> = ArrayVec::new();
    let mut telegram = Telegram::new();
    match decode_into(bytes, &mut telegram) {
        Ok(()) => {
            let packets = telegram.packets.as_slice();
            describe_read(packets, mode, direction, false, HEADER_BITS, &mut reported);
        }
        Err(_) => {
            let listing = packets_in_order(bytes);
            describe_refused(listing.packets.as_slice(), &mut reported);
        }
    }
    reported
}
