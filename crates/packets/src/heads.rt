//! What follows the number of a packet with distances: Q_DIR, L_PACKET and Q_SCALE.
ghost use Rattle.std.specs.Prelude.{◌≡◌, ◌↔◌, ◌+◌, ◌<◌, ◌≤◌, ◌^◌, IsTrue, OnOk};
ghost use Rattle.bits.specs.Layout.{Gives};
ghost use Rattle.packets.specs.Parts.{HeadFits, head_taken, read_head as head_read};

use crate::fault::PacketFault;
use crate::reading::field;
use crate::sink::{FieldSink, put};
use bits::{BitReader, VariableName};
use vars::{PacketLength, Scale, ValidityDirection, has_number};

/// Reads a head.
#[inline(always)]
pub(crate) fn read_head(
    reader: &mut BitReader<'_>,
) -> Result<(ValidityDirection, PacketLength, Scale), PacketFault>
    ensures { Gives (λ head. head) result reader.new (head_read reader.old) }
{
    let direction = ok!(field(reader));
    let reported = ok!(field(reader));
    let scale = ok!(field(reader));
    Ok((direction, reported, scale))
}

/// Hands a head with its L_PACKET to a sink.
#[inline(always)]
pub(crate) fn put_head<S: FieldSink>(
    sink: &mut S,
    direction: &ValidityDirection,
    reported: u64,
    scale: &Scale,
) -> Result<(), S::Error>
    requires reported { reported < 2 ^ 13 }
    requires space { S.held sink.old + 17 ≤ S.most }
    ensures value { OnOk result (S.seen sink.new ≡ head_taken S.took direction.now reported scale.now (S.seen sink.old)) }
    ensures held { OnOk result (S.held sink.new ≤ S.held sink.old + 17) }
{
    ok!(put(sink, VariableName::QDir, direction));
    ok!(sink.field(VariableName::LPacket, 13, reported));
    put(sink, VariableName::QScale, scale)
}

/// Whether a head is as its layout wants it, but for its L_PACKET.
#[tactic(auto, using(vars::proofs::Numbers::l_packet_has))]
pub(crate) fn head_fits(direction: &ValidityDirection, scale: &Scale) -> bool
    ensures { IsTrue result ↔ HeadFits direction.now scale.now }
{
    has_number(direction) && has_number(scale)
}
