//! What a guard next to the unit demands by the telegram of an event (`track_guard`; SUBSET-026 issue 2.3.0, from memory), as
//! lines (`docs/reference/json.md`). The unit and its journal know nothing of these demands.

mod list;
mod names;
mod text;

use crate::demand::names::{
    write_action, write_direction, write_finding, write_section, write_sureness,
};
use crate::values::write_mode;
pub use list::{Train, demand_lines};
use mode_table::Mode;
use serde::Serialize;
use track_guard::{Action, Demand, Finding, Section, Source, Sureness};
use vars::{LinkOrientation, ValidityDirection};

/// A demand of the equipment around the unit.
#[derive(Clone, Copy, Serialize)]
pub struct DemandLine {
    /// What is demanded.
    #[serde(serialize_with = "write_action")]
    pub demanded: Action,
    /// The direction in which the group has to be passed for it, where that isn't known; None where it is demanded anyway.
    #[serde(serialize_with = "write_direction")]
    pub only_in_direction: Option<LinkOrientation>,
    /// The mode before the event.
    #[serde(serialize_with = "write_mode")]
    pub mode: Mode,
    /// For what.
    #[serde(serialize_with = "write_finding")]
    pub finding: Finding,
    /// NID_PACKET; None where the whole telegram is refused.
    pub packet: Option<u8>,
    /// Where SUBSET-026, issue 2.3.0, says so.
    #[serde(serialize_with = "write_section")]
    pub section: Section,
    /// How sure that is.
    #[serde(serialize_with = "write_sureness")]
    pub sureness: Sureness,
}

/// Whether a demand is among those of a direction alone; all are where none is named.
pub(crate) fn counts(only: Option<LinkOrientation>, source: &Source) -> bool {
    match (only, source) {
        (None, _) => true,
        (Some(_), Source::Refused(_)) => false,
        (Some(direction), Source::Packet(place)) => matches!(
            (direction, place.direction),
            (LinkOrientation::Nominal, Some(ValidityDirection::Nominal))
                | (LinkOrientation::Reverse, Some(ValidityDirection::Reverse))
        ),
    }
}

/// The line of a demand.
pub(crate) fn line_of(mode: Mode, only: Option<LinkOrientation>, demand: &Demand) -> DemandLine {
    DemandLine {
        demanded: demand.action,
        only_in_direction: only,
        mode,
        finding: demand.finding,
        packet: match &demand.source {
            Source::Packet(place) => Some(place.number),
            Source::Refused(_) => None,
        },
        section: demand.finding.section(),
        sureness: demand.finding.sureness(),
    }
}
