//! The packets of a telegram one after another, by L_PACKET alone: also those that the kernel doesn't know.
ghost use Rattle.std.specs.Prelude.{◌≡◌, ◌<◌, ◌≤◌, drop, length};
ghost use Rattle.track_packets.specs.Listing.{direction_in, listing_of, step_at, IsWhole};
ghost use Rattle.vars.specs.Values.{direction_of};

use arrayvec::ArrayVec;
use bits::BitReader;
use vars::{ValidityDirection, Variable};

/// The bits of a telegram's header (SUBSET-026, 8.4.2).
const HEADER_BITS: u32 = 50;

/// How many packets are listed at most: more than a telegram of 104 bytes can hold.
pub const MOST_LISTED: usize = 34;

/// Where a packet stands in its telegram, by its head (SUBSET-026, 7.4.2).
#[derive(Clone, Copy, Default)]
pub struct PacketPlace {
    /// NID_PACKET.
    pub number: u8,
    /// Q_DIR; None where it is spare.
    pub direction: Option<ValidityDirection>,
    /// The place of its first bit in the telegram, from 0.
    pub start: u32,
    /// L_PACKET, its length in bits.
    pub length: u32,
}

/// What ends a list of packets; the place is that of the first bit that isn't of a packet in the list.
#[derive(Clone, Copy)]
pub enum ListingEnd {
    /// NID_PACKET 255, the end of the telegram.
    EndMark(u32),
    /// Fewer than 8 bits are left: there is no end mark.
    NoEnd(u32),
    /// The packet here goes beyond the last bit.
    CutOff(u32),
    /// The L_PACKET of the packet here is below 23, the bits of a packet's head.
    WrongLength(u32),
    /// There are as many packets as are listed at most, and no end mark after them.
    TooMany(u32),
}

/// The packets of a telegram, and what ends them.
#[derive(Drop)]
pub struct Listing {
    /// The packets in order.
    pub packets: ArrayVec<PacketPlace, MOST_LISTED>,
    /// What comes after them.
    pub end: ListingEnd,
}

/// What stands at a place: a packet, or what ends the list.
pub(crate) enum Step {
    Packet(PacketPlace),
    End(ListingEnd),
}

/// The direction of a number of two bits.
fn direction(number: u64) -> Option<ValidityDirection>
    requires { number < 4 }
    ensures { result ≡ direction_in (direction_of number) }
{
    match ValidityDirection::of_number(number) {
        Ok(direction) => Some(direction),
        Err(_) => None,
    }
}

/// What stands at a place: the bits of the reader begin there.
fn next_step(reader: &BitReader<'_>, at: u32) -> Step
    ensures value { result ≡ step_at at reader.now }
    ensures whole { IsWhole reader.now result }
{
    let mut bits = reader.fork();
    let Some(number) = bits.take(8) else {
        return Step::End(ListingEnd::NoEnd(at));
    };
    if number == 255 {
        return Step::End(ListingEnd::EndMark(at));
    }
    let Some(head) = bits.take(15) else {
        return Step::End(ListingEnd::CutOff(at));
    };
    let length = head % 8192;
    if length < 23 {
        return Step::End(ListingEnd::WrongLength(at));
    }
    if reader.remaining() < u128::from(length) {
        return Step::End(ListingEnd::CutOff(at));
    }
    Step::Packet(PacketPlace {
        number: number as u8,
        direction: direction(head / 8192),
        start: at,
        length: length as u32,
    })
}

/// Passes so many bits. The caller owes that there are so many.
fn pass(reader: &mut BitReader<'_>, bits: u32)
    requires { bits ≤ length reader.old }
    ensures { reader.new ≡ drop bits reader.old }
{
    match reader.run(bits) {
        Some(_passed) => {}
        None => {}
    }
}

/// The packets of a telegram in order, each by its L_PACKET, up to the end mark or to what keeps it from being found.
/// What the header says isn't looked at, and no field after L_PACKET is.
pub fn packets_in_order(bytes: &[u8]) -> Listing
    ensures { result ≡ listing_of bytes.now }
{
    let mut packets: ArrayVec<PacketPlace, MOST_LISTED> = ArrayVec::new();
    let mut reader = BitReader::new(bytes);
    let Some(_header) = reader.run(HEADER_BITS) else {
        return Listing {
            packets,
            end: ListingEnd::CutOff(0),
        };
    };
    let mut at = HEADER_BITS;
    for _ in 0..MOST_LISTED {
        match next_step(&reader, at) {
            Step::End(end) => return Listing { packets, end },
            Step::Packet(place) => {
                packets.push(place);
                pass(&mut reader, place.length);
                at += place.length;
            }
        }
    }
    Listing {
        packets,
        end: ListingEnd::TooMany(at),
    }
}
