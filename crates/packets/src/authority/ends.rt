//! The end of an authority, read and handed to a sink.
ghost use Rattle.std.specs.Prelude.{◌≡◌, ◌+◌, ◌≤◌, OnOk, ◌↔◌, IsTrue};
ghost use Rattle.bits.specs.Fitting.{Fits};
ghost use Rattle.bits.specs.Layout.{Gives, read};
ghost use Rattle.bits.specs.Writing.{size, taken};
ghost use Rattle.packets.specs.Layouts.{authority_end};

use crate::authority::sections::{end_section_fits, read_end_section, section_fields};
use crate::authority::{DangerPoint, EndTimer, MovementAuthority, Overlap, Section};
use crate::element::{Element, read_qualified};
use crate::fault::PacketFault;
use crate::fitting::qualified_fits;
use crate::reading::field;
use crate::sink::{FieldSink, put};
use crate::walk::{qualified, qualified_bits};
use bits::{BitReader, VariableName};
use vars::has_number;

impl Element for EndTimer {
    ghost use Rattle.packets.specs.Elements.{end_timer};

    ghost layout = { end_timer };

    #[tactic(auto, unfolding(crate::specs::Elements::end_timer))]
    fn read(reader: &mut BitReader<'_>) -> Result<EndTimer, PacketFault> {
        let time = ok!(field(reader));
        let start = ok!(field(reader));
        Ok(EndTimer { time, start })
    }

    #[tactic(auto, unfolding(crate::specs::Elements::end_timer))]
    fn fields<S: FieldSink>(&self, sink: &mut S) -> Result<(), S::Error> {
        ok!(put(sink, VariableName::TEndtimer, &self.time));
        put(sink, VariableName::DEndtimerstartloc, &self.start)
    }

    #[tactic(auto, unfolding(crate::specs::Elements::end_timer))]
    fn bits(&self) -> u64 {
        25
    }

    #[tactic(auto, unfolding(crate::specs::Elements::end_timer))]
    fn fits(&self) -> bool {
        has_number(&self.time) && has_number(&self.start)
    }
}

impl Element for DangerPoint {
    ghost use Rattle.packets.specs.Elements.{danger_point};

    ghost layout = { danger_point };

    #[tactic(auto, unfolding(crate::specs::Elements::danger_point))]
    fn read(reader: &mut BitReader<'_>) -> Result<DangerPoint, PacketFault> {
        let distance = ok!(field(reader));
        let release = ok!(field(reader));
        Ok(DangerPoint { distance, release })
    }

    #[tactic(auto, unfolding(crate::specs::Elements::danger_point))]
    fn fields<S: FieldSink>(&self, sink: &mut S) -> Result<(), S::Error> {
        ok!(put(sink, VariableName::DDp, &self.distance));
        put(sink, VariableName::VReleasedp, &self.release)
    }

    #[tactic(auto, unfolding(crate::specs::Elements::danger_point))]
    fn bits(&self) -> u64 {
        22
    }

    #[tactic(auto, unfolding(crate::specs::Elements::danger_point))]
    fn fits(&self) -> bool {
        has_number(&self.distance) && has_number(&self.release)
    }
}

impl Element for Overlap {
    ghost use Rattle.packets.specs.Elements.{overlap};

    ghost layout = { overlap };

    #[tactic(auto, unfolding(crate::specs::Elements::overlap))]
    fn read(reader: &mut BitReader<'_>) -> Result<Overlap, PacketFault> {
        let start = ok!(field(reader));
        let time = ok!(field(reader));
        let distance = ok!(field(reader));
        let release = ok!(field(reader));
        Ok(Overlap {
            start,
            time,
            distance,
            release,
        })
    }

    #[tactic(auto, unfolding(crate::specs::Elements::overlap))]
    fn fields<S: FieldSink>(&self, sink: &mut S) -> Result<(), S::Error> {
        ok!(put(sink, VariableName::DStartol, &self.start));
        ok!(put(sink, VariableName::TOl, &self.time));
        ok!(put(sink, VariableName::DOl, &self.distance));
        put(sink, VariableName::VReleaseol, &self.release)
    }

    #[tactic(auto, unfolding(crate::specs::Elements::overlap))]
    fn bits(&self) -> u64 {
        47
    }

    #[tactic(auto, unfolding(crate::specs::Elements::overlap))]
    fn fits(&self) -> bool {
        has_number(&self.start)
            && has_number(&self.time)
            && has_number(&self.distance)
            && has_number(&self.release)
    }
}

/// The end section of packet 12, and what there is at its end.
#[derive(Drop)]
pub(crate) struct AuthorityEnd {
    pub(crate) end_section: Section,
    pub(crate) end_timer: Option<EndTimer>,
    pub(crate) danger_point: Option<DangerPoint>,
    pub(crate) overlap: Option<Overlap>,
}

/// Reads the end.
#[inline(always)]
#[tactic(auto, unfolding(crate::specs::Layouts::authority_end))]
pub(crate) fn read_end(reader: &mut BitReader<'_>) -> Result<AuthorityEnd, PacketFault>
    ensures { Gives (λ x. x) result reader.new (read authority_end reader.old) }
{
    let end_section = ok!(read_end_section(reader));
    let end_timer = ok!(read_qualified(reader));
    let danger_point = ok!(read_qualified(reader));
    let overlap = ok!(read_qualified(reader));
    Ok(AuthorityEnd {
        end_section,
        end_timer,
        danger_point,
        overlap,
    })
}

impl MovementAuthority {
    /// The number of bits of the end.
    #[tactic(auto, unfolding(crate::specs::Layouts::authority_end, crate::specs::Elements::section))]
    pub(crate) fn end_bits(&self) -> u64
        ensures value { result ≡ size authority_end self.now }
        ensures bound { result ≤ 256 }
    {
        self.end_section.bits()
            + qualified_bits(&self.end_timer)
            + qualified_bits(&self.danger_point)
            + qualified_bits(&self.overlap)
    }

    /// Whether the end is as its layout wants it.
    #[tactic(auto, unfolding(crate::specs::Layouts::authority_end))]
    pub(crate) fn end_fits(&self) -> bool
        ensures { IsTrue result ↔ Fits authority_end self.now }
    {
        end_section_fits(&self.end_section)
            && qualified_fits(&self.end_timer)
            && qualified_fits(&self.danger_point)
            && qualified_fits(&self.overlap)
    }

    /// Hands the end to a sink.
    #[tactic(auto, unfolding(crate::specs::Layouts::authority_end))]
    pub(crate) fn end_fields<S: FieldSink>(&self, sink: &mut S) -> Result<(), S::Error>
        requires space { S.held sink.old + size authority_end self.now ≤ S.most }
        ensures { OnOk result (S.seen sink.new ≡ taken S.took authority_end self.now (S.seen sink.old)) }
    {
        ok!(section_fields(&self.end_section, VariableName::LEndsection, sink));
        ok!(qualified(sink, VariableName::QEndtimer, &self.end_timer));
        ok!(qualified(sink, VariableName::QDangerpoint, &self.danger_point));
        qualified(sink, VariableName::QOverlap, &self.overlap)
    }
}
