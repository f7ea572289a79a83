//! A demand for people.

use crate::demand::DemandLine;
use crate::demand::names::SectionText;
use std::fmt;
use track_guard::{Action, Finding, Sureness};
use track_packets::kind_of;
use vars::LinkOrientation;

fn condition_text(only: Option<LinkOrientation>) -> &'static str {
    match only {
        Some(LinkOrientation::Nominal) => ", if passed in the nominal direction",
        Some(LinkOrientation::Reverse) => ", if passed in the reverse direction",
        None => "",
    }
}

fn action_text(action: Action) -> &'static str {
    match action {
        Action::Trip => "trip for",
        Action::ServiceBrake => "service brake for",
        Action::NotObeyed => "not obeyed:",
        Action::Unreadable => "not readable:",
    }
}

fn telegram_text(finding: Finding) -> &'static str {
    match finding {
        Finding::GreaterVersion => "M_VERSION from 32 on",
        Finding::SameVersion => "M_VERSION 17 to 31",
        Finding::LesserVersion => "M_VERSION below 16",
        Finding::RefusedUnlinked => "refused telegram, not linked",
        _ => "refused telegram",
    }
}

fn sureness_text(sureness: Sureness) -> &'static str {
    match sureness {
        Sureness::Sure => "sure",
        Sureness::FairlySure => "fairly sure",
        Sureness::ToBeLookedUp => "to be looked up",
    }
}

impl fmt::Display for DemandLine {
    fn fmt<W: fmt::Write>(&self, f: &mut fmt::Formatter<W>) -> fmt::Result {
        let (condition, action) = (
            condition_text(self.only_in_direction),
            action_text(self.demanded),
        );
        write!(f, "outside the unit{condition}: {action} ")?;
        match self.packet {
            Some(number) => {
                let name = kind_of(number).map_or("without a name", |kind| kind.name.text());
                write!(f, "packet {number} {name}")?;
            }
            None => {
                let what = telegram_text(self.finding);
                write!(f, "{what}")?;
            }
        }
        let (section, sureness) = (SectionText(self.section), sureness_text(self.sureness));
        write!(f, " ({section}, {sureness})")
    }
}
