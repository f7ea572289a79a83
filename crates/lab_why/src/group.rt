//! The balise groups that an event closed, with their packets.

use crate::serializing::{
    write_direction, write_group_section, write_outcome, write_packet_name, write_reaction,
};
use image_lines::write_mode;
use mode_table::Mode;
use packet_uses::{Fate, fate_of};
use packets::Packet;
use reasons::{GroupKind, GroupReport, GroupsReport, group_reported, is_accepted};
use serde::Serialize;
use std::alloc::{AllocError, Global};
use track_picture::Closing;
use vars::{LinkOrientation, LinkReaction, Variable};

/// Why a packet wasn't used.
#[derive(Clone, Copy, Serialize)]
#[serde(rename_all = "snake_case")]
pub enum Unused {
    /// The kernel doesn't know it.
    NotKnown,
    /// It is a packet 136, or comes after one.
    Infill,
    /// The mode doesn't use its number.
    NotInMode,
    /// It isn't valid in the direction in which the group was passed.
    OtherDirection,
    /// Its telegram was refused as a whole.
    Refused,
    /// Its group wasn't accepted.
    GroupNotAccepted,
}

/// A packet of a group.
#[derive(Clone, Copy, Serialize)]
pub struct PacketLine {
    /// NID_PACKET.
    pub packet: u8,
    /// The number that its name is found by.
    #[serde(serialize_with = "write_packet_name")]
    pub name: u8,
    /// Why it wasn't used; None where it was.
    pub why: Option<Unused>,
}

/// A balise group that the event closed.
#[derive(Drop, Serialize)]
pub struct GroupLine {
    /// NID_C.
    pub country: u64,
    /// NID_BG.
    pub group: u64,
    /// The mode before the event, in which it was judged.
    #[serde(serialize_with = "write_mode")]
    pub mode: Mode,
    /// The direction in which it was passed; None where it isn't known.
    #[serde(serialize_with = "write_direction")]
    pub direction: Option<LinkOrientation>,
    /// What became of it.
    #[serde(serialize_with = "write_outcome")]
    pub outcome: GroupKind,
    /// The number of its announcement in packet 5, from 0; None without one.
    pub announcement: Option<u8>,
    /// What linking asked for because of it.
    #[serde(serialize_with = "write_reaction")]
    pub reaction: LinkReaction,
    /// The section of SUBSET-026 for what became of it.
    #[serde(serialize_with = "write_group_section")]
    pub section: GroupKind,
    /// The packets of its message, in their order; none of a broken group.
    pub packets: Vec<PacketLine>,
}

fn unused_as(accepted: bool, fate: Fate) -> Option<Unused> {
    match fate {
        _ if !accepted => Some(Unused::GroupNotAccepted),
        Fate::Used => None,
        Fate::NotKnown => Some(Unused::NotKnown),
        Fate::Infill => Some(Unused::Infill),
        Fate::NotInMode => Some(Unused::NotInMode),
        Fate::OtherDirection => Some(Unused::OtherDirection),
        Fate::Refused => Some(Unused::Refused),
    }
}

// A packet of a group that was judged in a mode.
fn packet_line(mode: Mode, reported: &GroupReport, packet: &Packet<'_>) -> PacketLine {
    let number = packet.number().get();
    let fate = fate_of(packet, mode, reported.direction, false);
    PacketLine {
        packet: number,
        name: number,
        why: unused_as(is_accepted(reported.kind), fate),
    }
}

// The packets of the message of a group; a broken one has none.
fn packets_in(
    alloc: Global,
    mode: Mode,
    reported: &GroupReport,
    closing: &Closing,
) -> Result<Vec<PacketLine>, AllocError> {
    let mut lines = Vec::new(alloc);
    if let Closing::Whole(message, _) = closing {
        for item in message.packets.iter() {
            lines.push(packet_line(mode, reported, item.packet()))?;
        }
    }
    Ok(lines)
}

fn group_line(alloc: Global, mode: Mode, closing: &Closing) -> Result<GroupLine, AllocError> {
    let reported = group_reported(closing);
    let packets = packets_in(alloc, mode, &reported, closing)?;
    Ok(GroupLine {
        country: reported.group.country.number(),
        group: reported.group.number.number(),
        mode,
        direction: reported.direction,
        outcome: reported.kind,
        announcement: reported.announcement,
        reaction: reported.reaction,
        section: reported.kind,
        packets,
    })
}

/// The groups that an event closed, in their order. The error is that of memory.
pub(crate) fn group_lines(
    alloc: Global,
    reported: &GroupsReport,
) -> Result<Vec<GroupLine>, AllocError> {
    let mut lines = Vec::new(alloc);
    let closings = &reported.closings;
    for closing in [&closings.ended, &closings.whole] {
        if let Some(closing) = closing {
            lines.push(group_line(alloc, reported.mode, closing)?)?;
        }
    }
    Ok(lines)
}
