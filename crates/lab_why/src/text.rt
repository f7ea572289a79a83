//! The lines for people.

use crate::group::{GroupLine, PacketLine, Unused};
use crate::known::KnownLine;
use crate::line::{Answer, Causes, EventLine, WhyLine};
use image_lines::{LengthText, PlaceText, SpeedText, describe_lines};
use kernel::BrakeCause;
use reasons::{
    ending, group_section, group_sentence, limit_section, limit_sentence, sentence, trip_section,
    trip_sentence,
};
use std::fmt;
use text_output::{brake_name, mode_name};
use track_packets::kind_of;
use vars::{LinkOrientation, LinkReaction};

impl fmt::Display for Answer {
    fn fmt<W: fmt::Write>(&self, f: &mut fmt::Formatter<W>) -> fmt::Result {
        let (event, brake) = (self.event, brake_name(self.brake));
        let (limit, speed) = (SpeedText(self.limit_m_per_h), SpeedText(self.speed_m_per_h));
        write!(
            f,
            "event {event}: brake {brake}, limit {limit}, speed {speed}"
        )?;
        if self.backward_cm == 0 {
            return Ok(());
        }
        let (backward, allowed) = (
            LengthText(self.backward_cm),
            LengthText(self.allowed_backward_cm),
        );
        write!(f, ", rolled backward {backward} ({allowed} allowed)")
    }
}

// Writes the causes of the brake that hold.
fn write_brake_causes<W: fmt::Write>(causes: &Causes, f: &mut fmt::Formatter<W>) -> fmt::Result {
    for cause in BrakeCause::ALL {
        if let Some(first) = causes.runs.runs.first(cause) {
            let (what, end) = (sentence(cause), ending(cause));
            write!(f, "\n  because {what} (since event {first}, {end})")?;
        }
    }
    Ok(())
}

// Writes why the train was tripped, while the trip is owed.
fn write_trip<W: fmt::Write>(causes: &Causes, f: &mut fmt::Formatter<W>) -> fmt::Result {
    let (Some(cause), Some(event)) = (causes.trip_cause, causes.trip_cause_event) else {
        return Ok(());
    };
    let (why, section) = (trip_sentence(cause), trip_section(cause));
    write!(
        f,
        "\n  the train was tripped: {why} (event {event}, {section})"
    )
}

impl fmt::Display for Causes {
    fn fmt<W: fmt::Write>(&self, f: &mut fmt::Formatter<W>) -> fmt::Result {
        write_brake_causes(self, f)?;
        write_trip(self, f)?;
        let (what, speed) = (
            limit_sentence(self.limit_cause),
            SpeedText(self.limit_cause_speed_m_per_h),
        );
        write!(f, "\n  {what}: {speed}")?;
        if let Some(place) = self.limit_cause_place_cm {
            let place = PlaceText(place);
            write!(f, " at {place}")?;
        }
        if let Some(number) = self.limit_cause_number {
            write!(f, ", number {number}")?;
        }
        let section = limit_section(self.limit_cause_section);
        write!(f, " ({section})")
    }
}

fn unused_text(why: Unused) -> &'static str {
    match why {
        Unused::NotKnown => " (not known)",
        Unused::Infill => " (infill)",
        Unused::NotInMode => " (not in this mode)",
        Unused::OtherDirection => " (other direction)",
        Unused::Refused => " (refused)",
        // What became of the group says it.
        Unused::GroupNotAccepted => "",
    }
}

impl fmt::Display for PacketLine {
    fn fmt<W: fmt::Write>(&self, f: &mut fmt::Formatter<W>) -> fmt::Result {
        let number = self.packet;
        let name = kind_of(self.name).map_or("without a name", |kind| kind.name.text());
        let why = self.why.map_or("", unused_text);
        write!(f, "packet {number} {name}{why}")
    }
}

fn direction_text(direction: Option<LinkOrientation>) -> &'static str {
    match direction {
        Some(LinkOrientation::Nominal) => "nominal",
        Some(LinkOrientation::Reverse) => "reverse",
        None => "not known",
    }
}

fn reaction_text(reaction: LinkReaction) -> &'static str {
    match reaction {
        LinkReaction::Trip => ", asks for a trip",
        LinkReaction::ServiceBrake => ", asks for the service brake",
        LinkReaction::NoReaction => "",
    }
}

impl fmt::Display for GroupLine {
    fn fmt<W: fmt::Write>(&self, f: &mut fmt::Formatter<W>) -> fmt::Result {
        let (country, group, mode) = (self.country, self.group, mode_name(self.mode));
        let (direction, outcome) = (direction_text(self.direction), group_sentence(self.outcome));
        write!(
            f,
            "group {country} {group} in mode {mode}, direction {direction}: {outcome}"
        )?;
        if let Some(number) = self.announcement {
            write!(f, ", announcement {number}")?;
        }
        let (reaction, section) = (reaction_text(self.reaction), group_section(self.section));
        write!(f, "{reaction} ({section})")?;
        for packet in self.packets.as_slice() {
            write!(f, "\n    {packet}")?;
        }
        Ok(())
    }
}

impl fmt::Display for EventLine {
    fn fmt<W: fmt::Write>(&self, f: &mut fmt::Formatter<W>) -> fmt::Result {
        let (answer, causes) = (&self.answer, &self.causes);
        write!(f, "{answer}{causes}")?;
        for group in self.groups.as_slice() {
            write!(f, "\n  {group}")?;
        }
        for demand in self.demands.as_slice() {
            write!(f, "\n  {demand}")?;
        }
        match &self.known {
            Some(known) => write!(f, "\n  known: {known}"),
            None => Ok(()),
        }
    }
}

impl fmt::Display for KnownLine {
    fn fmt<W: fmt::Write>(&self, f: &mut fmt::Formatter<W>) -> fmt::Result {
        describe_lines(self, "\n    ", f)
    }
}

impl fmt::Display for WhyLine {
    fn fmt<W: fmt::Write>(&self, f: &mut fmt::Formatter<W>) -> fmt::Result {
        match self {
            WhyLine::Event(line) => write!(f, "{line}"),
            WhyLine::LeftOut(line) => write!(f, "{line}"),
            WhyLine::Lost(line) => {
                let block = line.block;
                write!(f, "block {block} can't be read")
            }
        }
    }
}
