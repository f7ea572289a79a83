//! The names of values in JSON (`docs/reference/json.md`).

use image_lines::cold_name;
use kernel::{BrakeCause, TripCause};
use mode_table::Cold;
use reasons::{
    GroupKind, LimitKind, Runs, cause_name, group_name, group_section, limit_name, limit_section,
    trip_name, trip_section,
};
use serde::{Described, Serialize, Serializer};
use sessions::of_stop;
use track_packets::kind_of;
use vars::{AreaMode, LinkOrientation, LinkReaction};
use whole_lives::LiveError;

// A text, or null.
fn write_text<S: Serializer>(text: Option<&str>, out: &mut S) -> Result<(), S::Error> {
    match text {
        Some(text) => out.str(text),
        None => out.unit(),
    }
}

/// Since which event each cause of the brake has held: a member for each, by its name.
#[derive(Clone, Copy)]
pub struct CauseRuns {
    /// The events.
    pub runs: Runs,
}

impl Described for CauseRuns {}

impl Serialize for CauseRuns {
    fn serialize<S: Serializer>(&self, out: &mut S) -> Result<(), S::Error> {
        out.begin_map(Some(BrakeCause::ALL.len()))?;
        for cause in BrakeCause::ALL {
            out.key(cause_name(cause))?;
            self.runs.first(cause).serialize(out)?;
        }
        out.end_map()
    }
}

pub(crate) fn write_trip_cause<S: Serializer>(
    cause: &Option<TripCause>,
    out: &mut S,
) -> Result<(), S::Error> {
    write_text(cause.map(|cause| trip_name(cause)), out)
}

pub(crate) fn write_trip_section<S: Serializer>(
    cause: &Option<TripCause>,
    out: &mut S,
) -> Result<(), S::Error> {
    write_text(cause.map(|cause| trip_section(cause)), out)
}

pub(crate) fn write_limit_cause<S: Serializer>(
    kind: &LimitKind,
    out: &mut S,
) -> Result<(), S::Error> {
    out.str(limit_name(*kind))
}

pub(crate) fn write_limit_section<S: Serializer>(
    kind: &LimitKind,
    out: &mut S,
) -> Result<(), S::Error> {
    out.str(limit_section(*kind))
}

pub(crate) fn write_direction<S: Serializer>(
    direction: &Option<LinkOrientation>,
    out: &mut S,
) -> Result<(), S::Error> {
    let name = |direction| match direction {
        LinkOrientation::Nominal => "nominal",
        LinkOrientation::Reverse => "reverse",
    };
    write_text(direction.map(name), out)
}

pub(crate) fn write_orientation<S: Serializer>(
    direction: &LinkOrientation,
    out: &mut S,
) -> Result<(), S::Error> {
    write_direction(&Some(*direction), out)
}

pub(crate) fn write_area_mode<S: Serializer>(mode: &AreaMode, out: &mut S) -> Result<(), S::Error> {
    match mode {
        AreaMode::OnSight => out.str("on_sight"),
        AreaMode::Shunting => out.str("shunting"),
    }
}

pub(crate) fn write_outcome<S: Serializer>(kind: &GroupKind, out: &mut S) -> Result<(), S::Error> {
    out.str(group_name(*kind))
}

pub(crate) fn write_reaction<S: Serializer>(
    reaction: &LinkReaction,
    out: &mut S,
) -> Result<(), S::Error> {
    match reaction {
        LinkReaction::Trip => out.str("trip"),
        LinkReaction::ServiceBrake => out.str("service"),
        LinkReaction::NoReaction => out.unit(),
    }
}

pub(crate) fn write_group_section<S: Serializer>(
    kind: &GroupKind,
    out: &mut S,
) -> Result<(), S::Error> {
    out.str(group_section(*kind))
}

pub(crate) fn write_packet_name<S: Serializer>(number: &u8, out: &mut S) -> Result<(), S::Error> {
    write_text(kind_of(*number).map(|kind| kind.name.text()), out)
}

pub(crate) fn write_cold<S: Serializer>(cold: &Cold, out: &mut S) -> Result<(), S::Error> {
    out.str(cold_name(*cold))
}

pub(crate) fn write_refusal<S: Serializer>(error: &LiveError, out: &mut S) -> Result<(), S::Error> {
    out.str(of_stop(*error).1)
}
