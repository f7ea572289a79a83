//! The sections of an authority, read and handed to a sink.
ghost use Rattle.std.specs.Prelude.{◌≡◌, ◌+◌, ◌≤◌, OnOk, ◌↔◌, IsTrue};
ghost use Rattle.bits.specs.Fitting.{Spellable};
ghost use Rattle.bits.specs.Layout.{Gives, read};
ghost use Rattle.bits.specs.Writing.{size, taken};
ghost use Rattle.packets.specs.Elements.{section as section_layout};
ghost use Rattle.bits.specs.declared.name.VariableName.TheVariants as names;

use crate::authority::{Section, SectionTimer};
use crate::element::{Element, read_qualified};
use crate::fault::PacketFault;
use crate::fitting::qualified_fits;
use crate::reading::field;
use crate::sink::{FieldSink, put};
use crate::walk::qualified;
use bits::{BitReader, VariableName};
use vars::has_number;

impl Element for SectionTimer {
    ghost use Rattle.packets.specs.Elements.{section_timer};

    ghost layout = { section_timer };

    #[tactic(auto, unfolding(crate::specs::Elements::section_timer))]
    fn read(reader: &mut BitReader<'_>) -> Result<SectionTimer, PacketFault> {
        let time = ok!(field(reader));
        let stop = ok!(field(reader));
        Ok(SectionTimer { time, stop })
    }

    #[tactic(auto, unfolding(crate::specs::Elements::section_timer))]
    fn fields<S: FieldSink>(&self, sink: &mut S) -> Result<(), S::Error> {
        ok!(put(sink, VariableName::TSectiontimer, &self.time));
        put(sink, VariableName::DSectiontimerstoploc, &self.stop)
    }

    #[tactic(auto, unfolding(crate::specs::Elements::section_timer))]
    fn bits(&self) -> u64 {
        25
    }

    #[tactic(auto, unfolding(crate::specs::Elements::section_timer))]
    fn fits(&self) -> bool {
        has_number(&self.time) && has_number(&self.stop)
    }
}

impl Element for Section {
    ghost use Rattle.packets.specs.Elements.{section};

    ghost layout = { section names.LSection };

    #[tactic(auto, unfolding(crate::specs::Elements::section))]
    fn read(reader: &mut BitReader<'_>) -> Result<Section, PacketFault> {
        let length = ok!(field(reader));
        let timer = ok!(read_qualified(reader));
        Ok(Section { length, timer })
    }

    fn fields<S: FieldSink>(&self, sink: &mut S) -> Result<(), S::Error> {
        section_fields(self, VariableName::LSection, sink)
    }

    #[tactic(auto, unfolding(crate::specs::Elements::section, crate::specs::Elements::section_timer))]
    fn bits(&self) -> u64 {
        match &self.timer {
            Some(_) => 41,
            None => 16,
        }
    }

    #[tactic(auto, unfolding(crate::specs::Elements::section))]
    fn fits(&self) -> bool {
        has_number(&self.length) && qualified_fits(&self.timer)
    }
}

/// Reads the end section.
#[tactic(auto, unfolding(crate::specs::Elements::section))]
pub(crate) fn read_end_section(reader: &mut BitReader<'_>) -> Result<Section, PacketFault>
    ensures { Gives (λ x. x) result reader.new (read (section_layout names.LEndsection) reader.old) }
{
    Section::read(reader)
}

/// Whether an end section is as its layout wants it.
#[tactic(auto, unfolding(crate::specs::Elements::section))]
pub(crate) fn end_section_fits(section: &Section) -> bool
    ensures { IsTrue result ↔ Spellable (section_layout names.LEndsection) section.now }
{
    section.fits()
}

/// Hands a section to a sink, under the name of its length.
#[tactic(auto, unfolding(crate::specs::Elements::section))]
pub(crate) fn section_fields<S: FieldSink>(
    section: &Section,
    name: VariableName,
    sink: &mut S,
) -> Result<(), S::Error>
    requires space { S.held sink.old + size (section_layout name) section.now ≤ S.most }
    ensures value { OnOk result (S.seen sink.new ≡ taken S.took (section_layout name) section.now (S.seen sink.old)) }
    ensures held { OnOk result (S.held sink.new ≤ S.held sink.old + size (section_layout name) section.now) }
{
    ok!(put(sink, name, &section.length));
    qualified(sink, VariableName::QSectiontimer, &section.timer)
}
