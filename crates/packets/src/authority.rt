//! Packet 12, the movement authority: its sections, end timer, danger point and overlap (this project's profile).
ghost use Rattle.std.specs.Prelude.{◌≡◌, ◌+◌, ◌<◌, ◌≤◌, ◌^◌, [], length, OnOk, ◌↔◌, IsTrue};
ghost use Rattle.bits.specs.Fitting.{Fits};
ghost use Rattle.bits.specs.Layout.{Gives, kind, read};
ghost use Rattle.bits.specs.Writing.{size, taken};
ghost use Rattle.packets.specs.Layouts.{movement_authority, movement_authority_description};
ghost use Rattle.packets.specs.Packets.{as_packet, as_movement_authority};
ghost use Rattle.packets.specs.declared.packet.Packet.TheVariants as packets;

mod ends;
mod sections;

use crate::authority::ends::read_end;
use crate::element::{Element, read_list};
use crate::fault::PacketFault;
use crate::fitting::all_fit;
use crate::heads::{head_fits, put_head, read_head};
use crate::packet::Packet;
use crate::reading::field;
use crate::sink::{FieldSink, put};
use crate::walk::{all, bits_of_all};
use arrayvec::ArrayVec;
use bits::{BitReader, VariableName};
use vars::{
    Distance, Iterations, PacketLength, ReleaseSpeed, Scale, SpeedStep, Timer, ValidityDirection,
    Variable, has_number,
};

/// The timer of a section (SUBSET-026, 7.4.2; its layout: this project's profile).
#[derive(Clone, Copy)]
pub struct SectionTimer {
    /// T_SECTIONTIMER.
    pub time: Timer,
    /// D_SECTIONTIMERSTOPLOC: from the start of the section to where it stops.
    pub stop: Distance,
}

/// A section of an authority (SUBSET-026, 7.4.2; its layout: this project's profile).
#[derive(Clone, Copy)]
pub struct Section {
    /// L_SECTION or L_ENDSECTION.
    pub length: Distance,
    /// Where Q_SECTIONTIMER is 1.
    pub timer: Option<SectionTimer>,
}

/// Fills unused elements.
impl Default for Section {
    fn default() -> Section {
        Section {
            length: Distance::of_number(0).unwrap(),
            timer: None,
        }
    }
}

/// The timer of the end section (SUBSET-026, 7.4.2; its layout: this project's profile).
#[derive(Clone, Copy)]
pub struct EndTimer {
    /// T_ENDTIMER.
    pub time: Timer,
    /// D_ENDTIMERSTARTLOC: from the end back to where it starts.
    pub start: Distance,
}

/// The danger point beyond the end (SUBSET-026, 7.4.2; its layout: this project's profile).
#[derive(Clone, Copy)]
pub struct DangerPoint {
    /// D_DP: from the end.
    pub distance: Distance,
    /// V_RELEASEDP.
    pub release: ReleaseSpeed,
}

/// The overlap beyond the end (SUBSET-026, 7.4.2; its layout: this project's profile).
#[derive(Clone, Copy)]
pub struct Overlap {
    /// D_STARTOL: from the end back to where its timer starts.
    pub start: Distance,
    /// T_OL.
    pub time: Timer,
    /// D_OL: from the end.
    pub distance: Distance,
    /// V_RELEASEOL.
    pub release: ReleaseSpeed,
}

/// Packet 12: a movement authority of level 1 (SUBSET-026, 7.4.2; its layout: this project's profile).
#[derive(Drop)]
pub struct MovementAuthority {
    /// Q_DIR.
    pub direction: ValidityDirection,
    /// Q_SCALE.
    pub scale: Scale,
    /// V_MAIN.
    pub speed: SpeedStep,
    /// V_LOA.
    pub end_speed: SpeedStep,
    /// T_LOA.
    pub end_time: Timer,
    /// The sections before the end section, at most 31.
    pub sections: ArrayVec<Section, 31>,
    /// L_ENDSECTION and its timer.
    pub end_section: Section,
    /// Where Q_ENDTIMER is 1.
    pub end_timer: Option<EndTimer>,
    /// Where Q_DANGERPOINT is 1.
    pub danger_point: Option<DangerPoint>,
    /// Where Q_OVERLAP is 1.
    pub overlap: Option<Overlap>,
}

/// An authority to be filled: one without values is cleared at once, where it is to stay.
fn blank() -> MovementAuthority
    ensures { result.sections.items ≡ [] }
{
    MovementAuthority {
        direction: ValidityDirection::Reverse,
        scale: Scale::TenCentimetres,
        speed: SpeedStep::of_number(0).unwrap(),
        end_speed: SpeedStep::of_number(0).unwrap(),
        end_time: Timer::of_number(0).unwrap(),
        sections: ArrayVec::new(),
        end_section: Section::default(),
        end_timer: None,
        danger_point: None,
        overlap: None,
    }
}

/// Reads packet 12 after its number, into the place of another packet; answers its L_PACKET, in bits. The error is the
/// first fault in the order of the bits.
#[tactic(auto, unfolding(crate::specs::Layouts::movement_authority_description))]
pub(crate) fn read_movement_authority<'a>(
    reader: &mut BitReader<'a>,
    out: &mut Packet<'a>,
) -> Result<PacketLength, PacketFault>
    ensures { Gives (λ reported. (reported, out.new)) result reader.new (read (kind (as_packet packets.MovementAuthority) as_movement_authority movement_authority) reader.old) }
{
    let (direction, reported, scale) = ok!(read_head(reader));
    let speed = ok!(field(reader));
    let end_speed = ok!(field(reader));
    let end_time = ok!(field(reader));
    let count: Iterations = ok!(field(reader));
    *out = Packet::MovementAuthority(blank());
    let Packet::MovementAuthority(authority) = out else {
        return Err(PacketFault::OutOfRange);
    };
    authority.direction = direction;
    authority.scale = scale;
    authority.speed = speed;
    authority.end_speed = end_speed;
    authority.end_time = end_time;
    ok!(read_list(reader, &mut authority.sections, count.count()));
    let end = ok!(read_end(reader));
    authority.end_section = end.end_section;
    authority.end_timer = end.end_timer;
    authority.danger_point = end.danger_point;
    authority.overlap = end.overlap;
    Ok(reported)
}

impl MovementAuthority {
    /// The number of bits, those of NID_PACKET included.
    #[tactic(auto, unfolding(crate::specs::Layouts::movement_authority_description, crate::specs::Layouts::authority_end))]
    pub(crate) fn bits(&self) -> u64
        ensures value { result ≡ 8 + size (movement_authority_description (λ _. 0)) self.now }
        ensures bound { result < 2 ^ 13 }
    {
        54 + bits_of_all(self.sections.as_slice()) + self.end_bits()
    }

    /// Whether it is as its layout wants it, but for its L_PACKET.
    #[tactic(auto, unfolding(crate::specs::Layouts::movement_authority_description, crate::specs::Layouts::authority_end), using(vars::proofs::Numbers::n_iter_has))]
    pub(crate) fn fits(&self) -> bool
        ensures { IsTrue result ↔ Fits (movement_authority_description (λ _. 0)) self.now }
    {
        head_fits(&self.direction, &self.scale)
            && has_number(&self.speed)
            && has_number(&self.end_speed)
            && has_number(&self.end_time)
            && all_fit(self.sections.as_slice())
            && self.end_fits()
    }

    /// Hands the fields after NID_PACKET to a sink, with its L_PACKET.
    #[tactic(auto, unfolding(crate::specs::Layouts::movement_authority_description, crate::specs::Layouts::authority_end))]
    pub(crate) fn fields<S: FieldSink>(&self, reported: u64, sink: &mut S) -> Result<(), S::Error>
        requires reported { reported < 2 ^ 13 }
        requires space { S.held sink.old + size (movement_authority_description (λ _. 0)) self.now ≤ S.most }
        ensures { OnOk result (S.seen sink.new ≡ taken S.took (movement_authority_description (λ _. reported)) self.now (S.seen sink.old)) }
    {
        ok!(put_head(sink, &self.direction, reported, &self.scale));
        ok!(put(sink, VariableName::VMain, &self.speed));
        ok!(put(sink, VariableName::VLoa, &self.end_speed));
        ok!(put(sink, VariableName::TLoa, &self.end_time));
        ok!(sink.field(VariableName::NIter, 5, self.sections.len() as u64));
        ok!(all(&self.sections, sink));
        self.end_fields(sink)
    }
}
