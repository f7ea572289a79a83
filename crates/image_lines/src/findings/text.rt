//! The lines for people.

use crate::description::describe_lines;
use crate::findings::gaps::{BetweenLine, LostBlocks};
use crate::findings::image::{ImageFacts, SectorObject, SectorState};
use crate::findings::names::{field_name, format_number};
use crate::findings::power_up::{JournalObject, KeptObject, PowerUpResult, Refusal};
use crate::findings::slots::{BlockFacts, OwnBlock, SlotContent, SlotLine, UnreadableBlock};
use crate::findings::verdict::ExamineLine;
use std::{fmt, str};

// A number, or `?` where it isn't known.
#[derive(Clone, Copy)]
struct Known(Option<u64>);

impl fmt::Display for Known {
    fn fmt<W: fmt::Write>(&self, f: &mut fmt::Formatter<W>) -> fmt::Result {
        match self.0 {
            Some(number) => write!(f, "{number}"),
            None => f.write_str("?"),
        }
    }
}

impl fmt::Display for SectorObject {
    fn fmt<W: fmt::Write>(&self, f: &mut fmt::Formatter<W>) -> fmt::Result {
        f.write_str("first sector ")?;
        match self.state {
            SectorState::Readable => f.write_str("readable")?,
            SectorState::Unreadable => f.write_str("unreadable")?,
            SectorState::Missing => f.write_str("missing")?,
        }
        if let Some(slots) = self.slots {
            write!(f, " slots {slots}")?;
        }
        if let (Some(field), Some(byte)) = (self.field, self.byte) {
            let field = field_name(field);
            write!(f, " field {field} at byte {byte}")?;
        }
        let size = Known(self.size_slots);
        write!(f, " size of {size} slots")
    }
}

impl ImageFacts {
    // Whether the first sector has the number of slots that the image is read with, and its size is theirs.
    fn is_plain(&self) -> bool {
        let first = &self.first_sector;
        first.slots.is_some() && first.slots == self.slots && first.slots == first.size_slots
    }
}

impl fmt::Display for ImageFacts {
    fn fmt<W: fmt::Write>(&self, f: &mut fmt::Formatter<W>) -> fmt::Result {
        let (bytes, sectors, slots) = (self.bytes, self.sectors, Known(self.slots));
        let (whole, trailing) = (self.whole_slots, self.trailing_bytes);
        write!(
            f,
            "image bytes {bytes} sectors {sectors} slots {slots} whole {whole} trailing bytes {trailing}\nsha256 "
        )?;
        match &self.sha256 {
            Some(digits) => {
                let Ok(digits) = str::from_utf8(digits) else {
                    return Err(fmt::Error);
                };
                f.write_str(digits)?;
            }
            None => f.write_str("not taken")?,
        }
        if self.is_plain() {
            return Ok(());
        }
        let first = &self.first_sector;
        write!(f, "\n{first}")
    }
}

impl fmt::Display for BlockFacts {
    fn fmt<W: fmt::Write>(&self, f: &mut fmt::Formatter<W>) -> fmt::Result {
        let (block, format, life) = (self.block, format_number(self.format), self.life);
        let (first, last) = (self.first_event, self.last_event);
        write!(
            f,
            "{block} format {format} life {life} events {first}..{last}"
        )
    }
}

impl fmt::Display for OwnBlock {
    fn fmt<W: fmt::Write>(&self, f: &mut fmt::Formatter<W>) -> fmt::Result {
        let facts = &self.facts;
        write!(f, "{facts}")?;
        if !self.gate_is_own {
            f.write_str(" gate not its own")?;
        }
        if !self.in_journal {
            f.write_str(" not in the journal")?;
        }
        Ok(())
    }
}

impl fmt::Display for UnreadableBlock {
    fn fmt<W: fmt::Write>(&self, f: &mut fmt::Formatter<W>) -> fmt::Result {
        let block = self.block;
        write!(f, "{block}")?;
        if let Some(field) = self.field {
            let field = field_name(field);
            write!(f, " field {field}")?;
        }
        if let Some(record) = self.record {
            write!(f, " of record {record}")?;
        }
        if let Some(byte) = self.byte {
            write!(f, " at byte {byte}")?;
        }
        Ok(())
    }
}

impl fmt::Display for SlotContent {
    fn fmt<W: fmt::Write>(&self, f: &mut fmt::Formatter<W>) -> fmt::Result {
        match self {
            SlotContent::Block(block) => write!(f, "block {block}"),
            SlotContent::Unreadable(block) => write!(f, "unreadable {block}"),
            SlotContent::Misplaced(misplaced) => {
                let block = misplaced.block;
                let also = if misplaced.also_in_its_slot {
                    " also in its own slot"
                } else {
                    ""
                };
                write!(f, "misplaced {block}{also}")
            }
            SlotContent::Foreign => f.write_str("foreign"),
            SlotContent::Unwritten(block) => write!(f, "unwritten {block}"),
            SlotContent::Replaced(block) => write!(f, "replaced {block}"),
            SlotContent::Remains => f.write_str("remains"),
        }
    }
}

impl fmt::Display for SlotLine {
    fn fmt<W: fmt::Write>(&self, f: &mut fmt::Formatter<W>) -> fmt::Result {
        let (slot, first, last) = (self.slot, self.first_sector, self.last_sector);
        let content = &self.content;
        write!(f, "slot {slot} sectors {first}..{last} {content}")
    }
}

impl fmt::Display for LostBlocks {
    fn fmt<W: fmt::Write>(&self, f: &mut fmt::Formatter<W>) -> fmt::Result {
        let (first, last) = (self.first_block, self.last_block);
        let (from, to) = (Known(self.first_event), Known(self.last_event));
        write!(f, "lost blocks {first}..{last} events {from}..{to}")
    }
}

impl fmt::Display for BetweenLine {
    fn fmt<W: fmt::Write>(&self, f: &mut fmt::Formatter<W>) -> fmt::Result {
        let (block, what) = match self {
            BetweenLine::Lost(lost) => return write!(f, "{lost}"),
            BetweenLine::Events(wrong) => (wrong.block, "events do not follow on"),
            BetweenLine::Lives(wrong) => (wrong.block, "lives do not follow on"),
            BetweenLine::Moment(wrong) => (wrong.block, "a moment goes back"),
        };
        write!(f, "block {block} {what}")
    }
}

impl fmt::Display for JournalObject {
    fn fmt<W: fmt::Write>(&self, f: &mut fmt::Formatter<W>) -> fmt::Result {
        let (Some(first), Some(newest)) = (self.first_block, self.newest_block) else {
            return f.write_str("journal empty");
        };
        let (from, to, lives) = (Known(self.first_event), Known(self.last_event), self.lives);
        write!(
            f,
            "journal blocks {first}..{newest} events {from}..{to} lives {lives}"
        )
    }
}

impl fmt::Display for PowerUpResult {
    fn fmt<W: fmt::Write>(&self, f: &mut fmt::Formatter<W>) -> fmt::Result {
        f.write_str(match self.refusal {
            None => "power-up opens",
            Some(Refusal::NotFormatted) => "power-up refused 2 NotFormatted",
            Some(Refusal::Damaged) => "power-up refused 3 Damaged",
            Some(Refusal::WornOut) => "power-up refused 6 WornOut",
        })?;
        let Some(kept) = &self.kept else {
            return Ok(());
        };
        f.write_str("\nkept ")?;
        describe_lines(&KeptObject::of(kept), "\nkept ", f)
    }
}

impl fmt::Display for ExamineLine {
    fn fmt<W: fmt::Write>(&self, f: &mut fmt::Formatter<W>) -> fmt::Result {
        match self {
            ExamineLine::Image(line) => write!(f, "{line}"),
            ExamineLine::Slot(line) => write!(f, "{line}"),
            ExamineLine::Between(line) => write!(f, "{line}"),
            ExamineLine::Journal(Some(journal)) => write!(f, "{journal}"),
            ExamineLine::Journal(None) => f.write_str("journal none"),
            ExamineLine::PowerUp(line) => write!(f, "{line}"),
            ExamineLine::End(is_whole) => f.write_str(if *is_whole {
                "whole"
            } else {
                "not whole"
            }),
        }
    }
}
