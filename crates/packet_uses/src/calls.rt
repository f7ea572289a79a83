//! What C asks of a telegram's packets (`etcs_unit.h`).
ghost use Rattle.std.specs.Prelude.{◌≡◌};
ghost use Rattle.std.specs.List.{slice_get};
ghost use Rattle.packet_uses.specs.Calls.{DescribesFor, DescribesIn, DescribesOne, DescribesUnused, direction_by, fate_number, is_unused as is_unused_reported, description_of, unused_among, wide_mode_by};

use crate::description::{MOST_REPORTED, ReportedPacket, reported_packets};
use crate::fate::Fate;
use arrayvec::ArrayVec;
use mode_table::Mode;
use vars::LinkOrientation;

/// The call did what it was asked.
const DONE: u32 = 0;

/// The list ends before the index.
const END: u32 = 38;

/// A number is outside its limits.
const OUT_OF_RANGE: u32 = 255;

/// A packet that isn't used, as C gets it.
#[repr(C)]
#[derive(Clone, Copy)]
pub struct EtcsPacket {
    /// The place of its first bit in the telegram, from 0.
    pub start: u64,
    /// Its length in bits.
    pub bits: u64,
    /// NID_PACKET.
    pub number: u32,
    /// Why it isn't used, a number of `Fate`.
    pub why: u32,
}

/// Whether a packet isn't used.
fn is_unused(packet: &ReportedPacket) -> bool
    ensures { result ≡ is_unused_reported packet.now }
{
    match packet.fate {
        Fate::Used => false,
        Fate::NotKnown | Fate::Infill | Fate::NotInMode | Fate::OtherDirection | Fate::Refused =>
            true,
    }
}

/// The packet of this index among those that aren't used.
fn nth_unused(packets: &[ReportedPacket], index: u32) -> Option<ReportedPacket>
    ensures { result ≡ slice_get (unused_among packets.now) index }
{
    let Some((packet, others)) = packets.split_first() else {
        return None;
    };
    if !is_unused(packet) {
        return nth_unused(others, index);
    }
    if index == 0 {
        return Some(*packet);
    }
    nth_unused(others, index - 1)
}

/// The mode of a number of 32 bits.
fn mode_of(number: u32) -> Option<Mode>
    ensures { result ≡ wide_mode_by number }
{
    if number < 256 {
        Mode::of_number(number as u8)
    } else {
        None
    }
}

/// The direction of a number: 0 reverse, 1 nominal, 2 not known.
fn direction_of(number: u32) -> Option<Option<LinkOrientation>>
    ensures { result ≡ direction_by number }
{
    match number {
        0 => Some(Some(LinkOrientation::Reverse)),
        1 => Some(Some(LinkOrientation::Nominal)),
        2 => Some(None),
        _ => None,
    }
}

/// The number of what becomes of a packet, its discriminant.
fn number_of(fate: Fate) -> u32
    ensures { result ≡ fate_number fate }
{
    fate as u32
}

/// A packet as C gets it.
fn reported_to_c(packet: ReportedPacket) -> EtcsPacket
    ensures { result ≡ description_of packet }
{
    EtcsPacket {
        start: packet.start,
        bits: packet.length,
        number: u32::from(packet.number),
        why: number_of(packet.fate),
    }
}

/// Reports the packet of this index among those that aren't used.
fn describe_one(
    packets: &ArrayVec<ReportedPacket, MOST_REPORTED>,
    index: u32,
    reported: &mut EtcsPacket,
) -> u32
    ensures { DescribesOne (slice_get (unused_among packets.now.items) index) reported.old reported.new result }
{
    match nth_unused(packets.as_slice(), index) {
        Some(packet) => {
            *reported = reported_to_c(packet);
            DONE
        }
        None => END,
    }
}

/// Reports it of a telegram, in a mode and a direction.
fn describe_in(
    bytes: &[u8],
    mode: Mode,
    direction: Option<LinkOrientation>,
    index: u32,
    reported: &mut EtcsPacket,
) -> u32
    ensures { DescribesIn bytes.now mode direction index reported.old reported.new result }
{
    let packets = reported_packets(bytes, mode, direction);
    describe_one(&packets, index, reported)
}

/// Reports it where there is such a mode and such a direction.
fn describe_for(
    bytes: &[u8],
    mode: Option<Mode>,
    direction: Option<Option<LinkOrientation>>,
    index: u32,
    reported: &mut EtcsPacket,
) -> u32
    ensures { DescribesFor bytes.now mode direction index reported.old reported.new result }
{
    match mode {
        Some(mode) => match direction {
            Some(direction) => describe_in(bytes, mode, direction, index, reported),
            None => OUT_OF_RANGE,
        },
        None => OUT_OF_RANGE,
    }
}

/// Reports the packet of this index, from 0 on, among those of a telegram that a unit doesn't use in a mode (M_MODE), where
/// its group is accepted and passed in this direction (0 reverse, 1 nominal, 2 not known): 0, or 38 where the list ends
/// before it, or 255 where no mode or direction has the number; then nothing is reported.
pub fn unused_call(
    bytes: &[u8],
    mode: u32,
    direction: u32,
    index: u32,
    reported: &mut EtcsPacket,
) -> u32
    ensures { DescribesUnused bytes.now mode direction index reported.old reported.new result }
{
    let mode = mode_of(mode);
    let direction = direction_of(direction);
    describe_for(bytes, mode, direction, index, reported)
}
