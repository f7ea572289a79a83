//! Whether a packet is used, or why not.
ghost use Rattle.std.specs.Prelude.{◌≡◌};
ghost use Rattle.packet_uses.specs.Fates.{fate_reported};

use mode_table::{Mode, uses};
use packets::Packet;
use track_picture::{is_valid, valid_in};
use vars::LinkOrientation;

/// NID_PACKET of infill: neither it nor what follows it is used.
pub(crate) const INFILL: u8 = 136;

/// What becomes of a packet of a telegram, with the number by which C gets it.
#[derive(Clone, Copy)]
pub enum Fate {
    /// It is used, where its group is accepted.
    Used = 0,
    /// The kernel doesn't know it.
    NotKnown = 1,
    /// It is a packet 136, or comes after one.
    Infill = 2,
    /// The mode doesn't use its number.
    NotInMode = 3,
    /// It isn't valid in the direction in which the group is passed.
    OtherDirection = 4,
    /// The telegram is refused as a whole.
    Refused = 5,
}

impl Default for Fate {
    fn default() -> Fate {
        Fate::NotKnown
    }
}

/// What becomes of a packet in a mode, of a group that is passed in this direction (None where it isn't known); and
/// whether a packet 136 stands before it.
pub fn fate_of(
    packet: &Packet<'_>,
    mode: Mode,
    direction: Option<LinkOrientation>,
    is_after_infill: bool,
) -> Fate
    ensures { result ≡ fate_reported mode direction is_after_infill packet.now }
{
    let number = packet.number().get();
    if is_after_infill || number == INFILL {
        return Fate::Infill;
    }
    let Some(valid) = valid_in(packet) else {
        return Fate::NotKnown;
    };
    if !uses(mode, number) {
        return Fate::NotInMode;
    }
    if is_valid(valid, direction) {
        Fate::Used
    } else {
        Fate::OtherDirection
    }
}
