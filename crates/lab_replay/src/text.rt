//! The lines for people.

use crate::line::{HeadLine, Outcome, RecordLine, ReplayLine, StretchLine};
use crate::serializing::{KeptObject, kept_field_name, record_field_name};
use image_lines::{Reason, describe_value};
use std::fmt;

fn reason_text(reason: Reason) -> &'static str {
    match reason {
        Reason::BeforeOldest => "what was kept before its power-up is in no block that is retained",
        Reason::Gap => "blocks or events are missing before",
        Reason::WithinBlock => "no head contains what was kept before its power-up",
        Reason::AfterDifference => "they follow a record that differs",
    }
}

impl fmt::Display for StretchLine {
    fn fmt<W: fmt::Write>(&self, f: &mut fmt::Formatter<W>) -> fmt::Result {
        let (life, first, last) = (self.life, self.first_event, self.last_event);
        match self.reason {
            None => write!(f, "life {life} events {first}..{last} agree"),
            Some(reason) => {
                let why = reason_text(reason);
                write!(
                    f,
                    "life {life} events {first}..{last} can't be replayed: {why}"
                )
            }
        }
    }
}

impl fmt::Display for RecordLine {
    fn fmt<W: fmt::Write>(&self, f: &mut fmt::Formatter<W>) -> fmt::Result {
        let (life, block, event) = (self.life, self.block, self.event);
        let field = record_field_name(self.field);
        write!(
            f,
            "life {life} block {block} event {event} differs in {field}\n  journal: "
        )?;
        describe_value(&self.journal, f)?;
        f.write_str("\n  kernel:  ")?;
        describe_value(&self.kernel, f)
    }
}

impl fmt::Display for HeadLine {
    fn fmt<W: fmt::Write>(&self, f: &mut fmt::Formatter<W>) -> fmt::Result {
        let (life, block, field) = (self.life, self.block, kept_field_name(self.field));
        write!(
            f,
            "life {life} head of block {block} differs in {field}\n  journal: "
        )?;
        describe_value(&KeptObject::of(&self.journal), f)?;
        f.write_str("\n  kernel:  ")?;
        describe_value(&KeptObject::of(&self.kernel), f)
    }
}

impl fmt::Display for ReplayLine {
    fn fmt<W: fmt::Write>(&self, f: &mut fmt::Formatter<W>) -> fmt::Result {
        match self {
            ReplayLine::Stretch(line) => write!(f, "{line}"),
            ReplayLine::Record(line) => write!(f, "{line}"),
            ReplayLine::Head(line) => write!(f, "{line}"),
            ReplayLine::Lost(line) => {
                let block = line.block;
                write!(f, "block {block} can't be read")
            }
            ReplayLine::End(line) => f.write_str(match line.end {
                Outcome::Whole => "nothing differs",
                Outcome::Differs => "something differs or is lost",
            }),
        }
    }
}
