//! The packets of a telegram that no mode uses in any direction.
ghost use Rattle.std.specs.Prelude.{◌≡◌, ◌+◌, ◌≤◌, ◌++◌, length};
ghost use Rattle.packet_uses.specs.Never.{DescribesNeverUsed, is_never_used as is_never_used_reported, never_used_among};

use crate::description::{MOST_REPORTED, ReportedPacket, reported_packets};
use crate::fate::Fate;
use arrayvec::ArrayVec;
use mode_table::Mode;

/// Whether a packet of which this becomes is used in no mode and no direction.
fn is_never_used(fate: Fate) -> bool
    ensures { result ≡ is_never_used_reported fate }
{
    match fate {
        Fate::NotKnown | Fate::Infill | Fate::Refused => true,
        Fate::Used | Fate::NotInMode | Fate::OtherDirection => false,
    }
}

/// Keeps such packets of those that are reported.
fn keep(packets: &[ReportedPacket], kept: &mut ArrayVec<ReportedPacket, MOST_REPORTED>)
    requires { length kept.old.items + length packets.now ≤ 34 }
    ensures { kept.new.items ≡ kept.old.items ++ never_used_among packets.now }
{
    let Some((packet, others)) = packets.split_first() else {
        return;
    };
    if is_never_used(packet.fate) {
        kept.push(*packet);
    }
    keep(others, kept);
}

/// The packets of a telegram that no mode uses in any direction, in their order, each with why: those that the kernel
/// doesn't know, a packet 136 and what follows it, and each packet of a telegram that is refused.
pub fn never_used_packets(bytes: &[u8]) -> ArrayVec<ReportedPacket, MOST_REPORTED>
    ensures { DescribesNeverUsed bytes.now result.items }
{
    let reported = reported_packets(bytes, Mode::FullSupervision, None);
    let mut kept: ArrayVec<ReportedPacket, MOST_REPORTED> = ArrayVec::new();
    keep(reported.as_slice(), &mut kept);
    kept
}
