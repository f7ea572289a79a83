//! Packet 80: areas of On Sight and Shunting, read and handed to a sink (this project's profile).
ghost use Rattle.std.specs.Prelude.{◌≡◌, ◌+◌, ◌<◌, ◌≤◌, ◌^◌, length, OnOk, ◌↔◌, IsTrue};
ghost use Rattle.bits.specs.Fitting.{Fits};
ghost use Rattle.bits.specs.Layout.{Gives, kind, read};
ghost use Rattle.bits.specs.Writing.{size, taken};
ghost use Rattle.packets.specs.Layouts.{mode_profile, mode_profile_description};
ghost use Rattle.packets.specs.Packets.{as_packet, as_mode_profile};
ghost use Rattle.packets.specs.declared.packet.Packet.TheVariants as packets;

use crate::element::{Element, read_from_first};
use crate::fault::PacketFault;
use crate::fitting::from_first_fits;
use crate::heads::{head_fits, put_head, read_head};
use crate::packet::Packet;
use crate::reading::field;
use crate::sink::{FieldSink, put};
use crate::walk::{from_first, from_first_bits};
use arrayvec::ArrayVec;
use bits::{BitReader, VariableName};
use vars::{
    AreaMode, AreaSpeed, Distance, OpenLength, PacketLength, Scale, ValidityDirection, Variable,
    has_number,
};

/// An area in which a mode is asked for (SUBSET-026, 7.4.2; its layout: this project's profile).
#[derive(Clone, Copy)]
pub struct ModeArea {
    /// D_MAMODE: from the start of the area before, the first from the group.
    pub distance: Distance,
    /// M_MAMODE.
    pub mode: AreaMode,
    /// V_MAMODE.
    pub speed: AreaSpeed,
    /// L_MAMODE.
    pub length: OpenLength,
    /// L_ACKMAMODE: how far before its start it may be acknowledged.
    pub acknowledgement: Distance,
}

/// Fills unused elements.
impl Default for ModeArea {
    fn default() -> ModeArea {
        ModeArea {
            distance: Distance::of_number(0).unwrap(),
            mode: AreaMode::OnSight,
            speed: AreaSpeed::National,
            length: OpenLength::NoEnd,
            acknowledgement: Distance::of_number(0).unwrap(),
        }
    }
}

impl Element for ModeArea {
    ghost use Rattle.packets.specs.Elements.{mode_area};

    ghost layout = { mode_area };

    #[tactic(auto, unfolding(crate::specs::Elements::mode_area))]
    fn read(reader: &mut BitReader<'_>) -> Result<ModeArea, PacketFault> {
        let distance = ok!(field(reader));
        let mode = ok!(field(reader));
        let speed = ok!(field(reader));
        let length = ok!(field(reader));
        let acknowledgement = ok!(field(reader));
        Ok(ModeArea {
            distance,
            mode,
            speed,
            length,
            acknowledgement,
        })
    }

    #[tactic(auto, unfolding(crate::specs::Elements::mode_area))]
    fn fields<S: FieldSink>(&self, sink: &mut S) -> Result<(), S::Error> {
        ok!(put(sink, VariableName::DMamode, &self.distance));
        ok!(put(sink, VariableName::MMamode, &self.mode));
        ok!(put(sink, VariableName::VMamode, &self.speed));
        ok!(put(sink, VariableName::LMamode, &self.length));
        put(sink, VariableName::LAckmamode, &self.acknowledgement)
    }

    #[tactic(auto, unfolding(crate::specs::Elements::mode_area))]
    fn bits(&self) -> u64 {
        54
    }

    #[tactic(auto, unfolding(crate::specs::Elements::mode_area))]
    fn fits(&self) -> bool {
        has_number(&self.distance)
            && has_number(&self.mode)
            && has_number(&self.speed)
            && has_number(&self.length)
            && has_number(&self.acknowledgement)
    }
}

/// Packet 80: the areas in which On Sight or Shunting is asked for (SUBSET-026, 7.4.2; its layout: this project's
/// profile).
#[derive(Drop)]
pub struct ModeProfile {
    /// Q_DIR.
    pub direction: ValidityDirection,
    /// Q_SCALE.
    pub scale: Scale,
    /// The areas, the nearest first.
    pub areas: ArrayVec<ModeArea, 32>,
}

/// Reads packet 80 after its number, into the place of another packet; answers its L_PACKET, in bits. The error is the
/// first fault in the order of the bits.
#[tactic(auto, unfolding(crate::specs::Layouts::mode_profile_description))]
pub(crate) fn read_mode_profile<'a>(
    reader: &mut BitReader<'a>,
    out: &mut Packet<'a>,
) -> Result<PacketLength, PacketFault>
    ensures { Gives (λ reported. (reported, out.new)) result reader.new (read (kind (as_packet packets.ModeProfile) as_mode_profile mode_profile) reader.old) }
{
    let (direction, reported, scale) = ok!(read_head(reader));
    *out = Packet::ModeProfile(ModeProfile {
        direction,
        scale,
        areas: ArrayVec::new(),
    });
    let Packet::ModeProfile(ModeProfile { areas, .. }) = out else {
        return Err(PacketFault::OutOfRange);
    };
    ok!(read_from_first(reader, areas));
    Ok(reported)
}

impl ModeProfile {
    /// The number of bits, those of NID_PACKET included.
    #[tactic(auto, unfolding(crate::specs::Layouts::mode_profile_description))]
    pub(crate) fn bits(&self) -> u64
        ensures value { result ≡ 8 + size (mode_profile_description (λ _. 0)) self.now }
        ensures bound { result < 2 ^ 13 }
    {
        25 + from_first_bits(self.areas.as_slice())
    }

    /// Whether it is as its layout wants it, but for its L_PACKET.
    #[tactic(auto, unfolding(crate::specs::Layouts::mode_profile_description))]
    pub(crate) fn fits(&self) -> bool
        ensures { IsTrue result ↔ Fits (mode_profile_description (λ _. 0)) self.now }
    {
        head_fits(&self.direction, &self.scale) && from_first_fits(self.areas.as_slice())
    }

    /// Hands the fields after NID_PACKET to a sink, with its L_PACKET.
    #[tactic(auto, unfolding(crate::specs::Layouts::mode_profile_description))]
    pub(crate) fn fields<S: FieldSink>(&self, reported: u64, sink: &mut S) -> Result<(), S::Error>
        requires reported { reported < 2 ^ 13 }
        requires space { S.held sink.old + size (mode_profile_description (λ _. 0)) self.now ≤ S.most }
        ensures { OnOk result (S.seen sink.new ≡ taken S.took (mode_profile_description (λ _. reported)) self.now (S.seen sink.old)) }
    {
        ok!(put_head(sink, &self.direction, reported, &self.scale));
        from_first(self.areas.as_slice(), sink)
    }
}
