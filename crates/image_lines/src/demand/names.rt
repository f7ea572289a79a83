//! The names of values in JSON: those of `etcs_guard.h` (`docs/reference/json.md`).

use serde::Serializer;
use std::fmt;
use track_guard::{Action, Finding, Section, Sureness};
use vars::LinkOrientation;

pub(crate) fn write_action<S: Serializer>(action: &Action, out: &mut S) -> Result<(), S::Error> {
    out.str(match action {
        Action::Trip => "trip",
        Action::ServiceBrake => "service_brake",
        Action::NotObeyed => "not_obeyed",
        Action::Unreadable => "unreadable",
    })
}

pub(crate) fn write_direction<S: Serializer>(
    direction: &Option<LinkOrientation>,
    out: &mut S,
) -> Result<(), S::Error> {
    match direction {
        Some(LinkOrientation::Nominal) => out.str("nominal"),
        Some(LinkOrientation::Reverse) => out.str("reverse"),
        None => out.unit(),
    }
}

pub(crate) fn write_finding<S: Serializer>(finding: &Finding, out: &mut S) -> Result<(), S::Error> {
    out.str(match finding {
        Finding::StopInStaffResponsible => "stop_in_staff_responsible",
        Finding::DangerForShunting => "danger_for_shunting",
        Finding::ShuntingBalises => "shunting_balises",
        Finding::StopShunting => "stop_shunting",
        Finding::Repositioning => "repositioning",
        Finding::ConditionalLevel => "conditional_level",
        Finding::AxleLoadSpeeds => "axle_load_speeds",
        Finding::RouteSuitability => "route_suitability",
        Finding::SlipperyRail => "slippery_rail",
        Finding::EndlessEndSpeed => "endless_end_speed",
        Finding::GreaterVersion => "greater_version",
        Finding::SameVersion => "same_version",
        Finding::LesserVersion => "lesser_version",
        Finding::RefusedUnlinked => "refused_unlinked",
        Finding::Refused => "refused",
    })
}

/// A section as text: 4.6.3, or 5.6 for a whole section.
#[derive(Clone, Copy)]
pub(crate) struct SectionText(pub(crate) Section);

impl fmt::Display for SectionText {
    fn fmt<W: fmt::Write>(&self, f: &mut fmt::Formatter<W>) -> fmt::Result {
        let (chapter, section, clause) = (self.0.chapter, self.0.section, self.0.clause);
        write!(f, "{chapter}.{section}")?;
        if clause > 0 {
            write!(f, ".{clause}")?;
        }
        Ok(())
    }
}

pub(crate) fn write_section<S: Serializer>(section: &Section, out: &mut S) -> Result<(), S::Error> {
    out.collect_str(&SectionText(*section))
}

pub(crate) fn write_sureness<S: Serializer>(
    sureness: &Sureness,
    out: &mut S,
) -> Result<(), S::Error> {
    out.str(match sureness {
        Sureness::Sure => "sure",
        Sureness::FairlySure => "fairly_sure",
        Sureness::ToBeLookedUp => "to_be_looked_up",
    })
}
