//! Packets 65 and 66: a temporary speed restriction is ordered or revoked.
ghost use Rattle.std.specs.Prelude.{◌≡◌, ◌+◌, ◌<◌, ◌≤◌, ◌^◌, OnOk, ◌↔◌, IsTrue};
ghost use Rattle.bits.specs.Fitting.{Fits};
ghost use Rattle.bits.specs.Layout.{Gives, kind, read};
ghost use Rattle.bits.specs.Writing.{size, taken};
ghost use Rattle.packets.specs.Layouts.{speed_restriction, restriction_revocation, speed_restriction_description, restriction_revocation_description};
ghost use Rattle.packets.specs.Packets.{as_packet, as_speed_restriction, as_revocation};
ghost use Rattle.packets.specs.declared.packet.Packet.TheVariants as packets;

use crate::fault::PacketFault;
use crate::heads::{head_fits, put_head, read_head};
use crate::packet::Packet;
use crate::reading::field;
use crate::sink::{FieldSink, put};
use bits::{BitReader, VariableName};
use vars::{
    Distance, PacketLength, RestrictionNumber, Scale, SpeedStep, TrainLengthDelay,
    ValidityDirection, has_number,
};

/// Packet 65: a temporary speed restriction (SUBSET-026, 7.4.2).
#[derive(Clone, Copy)]
pub struct SpeedRestriction {
    /// Q_DIR.
    pub direction: ValidityDirection,
    /// Q_SCALE.
    pub scale: Scale,
    /// NID_TSR.
    pub number: RestrictionNumber,
    /// D_TSR: from the group to its start.
    pub start: Distance,
    /// L_TSR.
    pub length: Distance,
    /// Q_FRONT.
    pub delay: TrainLengthDelay,
    /// V_TSR.
    pub speed: SpeedStep,
}

/// Packet 66: a temporary speed restriction is revoked (SUBSET-026, 7.4.2).
#[derive(Clone, Copy)]
pub struct RestrictionRevocation {
    /// Q_DIR.
    pub direction: ValidityDirection,
    /// NID_TSR.
    pub number: RestrictionNumber,
}

/// Reads packet 65 after its number, into the place of another packet; answers its L_PACKET, in bits. The error is the
/// first fault in the order of the bits.
#[tactic(auto, unfolding(crate::specs::Layouts::speed_restriction_description))]
pub(crate) fn read_restriction<'a>(
    reader: &mut BitReader<'a>,
    out: &mut Packet<'a>,
) -> Result<PacketLength, PacketFault>
    ensures { Gives (λ reported. (reported, out.new)) result reader.new (read (kind (as_packet packets.SpeedRestriction) as_speed_restriction speed_restriction) reader.old) }
{
    let (direction, reported, scale) = ok!(read_head(reader));
    let number = ok!(field(reader));
    let start = ok!(field(reader));
    let length = ok!(field(reader));
    let delay = ok!(field(reader));
    let speed = ok!(field(reader));
    *out = Packet::SpeedRestriction(SpeedRestriction {
        direction,
        scale,
        number,
        start,
        length,
        delay,
        speed,
    });
    Ok(reported)
}

/// Reads packet 66 after its number, into the place of another packet; answers its L_PACKET, in bits. The error is the
/// first fault in the order of the bits.
#[tactic(auto, unfolding(crate::specs::Layouts::restriction_revocation_description))]
pub(crate) fn read_revocation<'a>(
    reader: &mut BitReader<'a>,
    out: &mut Packet<'a>,
) -> Result<PacketLength, PacketFault>
    ensures { Gives (λ reported. (reported, out.new)) result reader.new (read (kind (as_packet packets.RestrictionRevocation) as_revocation restriction_revocation) reader.old) }
{
    let direction = ok!(field(reader));
    let reported: PacketLength = ok!(field(reader));
    let number = ok!(field(reader));
    *out = Packet::RestrictionRevocation(RestrictionRevocation { direction, number });
    Ok(reported)
}

impl SpeedRestriction {
    /// The number of bits, those of NID_PACKET included.
    #[tactic(auto, unfolding(crate::specs::Layouts::speed_restriction_description))]
    pub(crate) fn bits(&self) -> u64
        ensures value { result ≡ 8 + size (speed_restriction_description (λ _. 0)) self.now }
        ensures bound { result < 2 ^ 13 }
    {
        71
    }

    /// Whether it is as its layout wants it, but for its L_PACKET.
    #[tactic(auto, unfolding(crate::specs::Layouts::speed_restriction_description))]
    pub(crate) fn fits(&self) -> bool
        ensures { IsTrue result ↔ Fits (speed_restriction_description (λ _. 0)) self.now }
    {
        head_fits(&self.direction, &self.scale)
            && has_number(&self.number)
            && has_number(&self.start)
            && has_number(&self.length)
            && has_number(&self.delay)
            && has_number(&self.speed)
    }

    /// Hands the fields after NID_PACKET to a sink, with its L_PACKET.
    #[tactic(auto, unfolding(crate::specs::Layouts::speed_restriction_description))]
    pub(crate) fn fields<S: FieldSink>(&self, reported: u64, sink: &mut S) -> Result<(), S::Error>
        requires reported { reported < 2 ^ 13 }
        requires space { S.held sink.old + size (speed_restriction_description (λ _. 0)) self.now ≤ S.most }
        ensures { OnOk result (S.seen sink.new ≡ taken S.took (speed_restriction_description (λ _. reported)) self.now (S.seen sink.old)) }
    {
        ok!(put_head(sink, &self.direction, reported, &self.scale));
        ok!(put(sink, VariableName::NidTsr, &self.number));
        ok!(put(sink, VariableName::DTsr, &self.start));
        ok!(put(sink, VariableName::LTsr, &self.length));
        ok!(put(sink, VariableName::QFront, &self.delay));
        put(sink, VariableName::VTsr, &self.speed)
    }
}

impl RestrictionRevocation {
    /// The number of bits, those of NID_PACKET included.
    #[tactic(auto, unfolding(crate::specs::Layouts::restriction_revocation_description))]
    pub(crate) fn bits(&self) -> u64
        ensures value { result ≡ 8 + size (restriction_revocation_description (λ _. 0)) self.now }
        ensures bound { result < 2 ^ 13 }
    {
        31
    }

    /// Whether it is as its layout wants it, but for its L_PACKET.
    #[tactic(auto, unfolding(crate::specs::Layouts::restriction_revocation_description), using(vars::proofs::Numbers::l_packet_has))]
    pub(crate) fn fits(&self) -> bool
        ensures { IsTrue result ↔ Fits (restriction_revocation_description (λ _. 0)) self.now }
    {
        has_number(&self.direction) && has_number(&self.number)
    }

    /// Hands the fields after NID_PACKET to a sink, with its L_PACKET.
    #[tactic(auto, unfolding(crate::specs::Layouts::restriction_revocation_description))]
    pub(crate) fn fields<S: FieldSink>(&self, reported: u64, sink: &mut S) -> Result<(), S::Error>
        requires reported { reported < 2 ^ 13 }
        requires space { S.held sink.old + size (restriction_revocation_description (λ _. 0)) self.now ≤ S.most }
        ensures { OnOk result (S.seen sink.new ≡ taken S.took (restriction_revocation_description (λ _. reported)) self.now (S.seen sink.old)) }
    {
        ok!(put(sink, VariableName::QDir, &self.direction));
        ok!(sink.field(VariableName::LPacket, 13, reported));
        put(sink, VariableName::NidTsr, &self.number)
    }
}
