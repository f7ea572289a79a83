//! The lists of what the kernel knows: announced groups, mode areas, restrictions and countries.

use crate::serializing::{write_area_mode, write_orientation, write_reaction};
use areas::Area;
use linking::Announcement;
use serde::Serialize;
use std::alloc::{AllocError, Global};
use track_store::Restriction;
use units::Cm;
use vars::{
    AreaMode, AreaSpeed, Country, LinkOrientation, LinkReaction, TrainLengthDelay, Variable,
};

/// An announced balise group that is left.
#[derive(Clone, Copy, Serialize)]
pub struct LinkLine {
    /// Its number in its packet 5, from 0.
    pub announcement: u8,
    /// NID_C.
    pub country: u64,
    /// NID_BG.
    pub group: u64,
    /// Its place, in centimetres.
    pub place_cm: i64,
    /// How far it may be from there to either side, in centimetres.
    pub accuracy_cm: i64,
    /// The direction in which it is to be passed.
    #[serde(serialize_with = "write_orientation")]
    pub direction: LinkOrientation,
    /// What follows if it isn't found as announced.
    #[serde(serialize_with = "write_reaction")]
    pub reaction: LinkReaction,
}

/// A mode area.
#[derive(Clone, Copy, Serialize)]
pub struct AreaLine {
    /// The mode that it asks for.
    #[serde(serialize_with = "write_area_mode")]
    pub area: AreaMode,
    /// Its first centimetre.
    pub start_cm: i64,
    /// The first centimetre after it; None where it has no end.
    pub end_cm: Option<i64>,
    /// Its speed, in metres per hour; None where it is the national value of its mode.
    pub speed_m_per_h: Option<u32>,
    /// From where on an acknowledgement is asked for, in centimetres.
    pub acknowledgement_cm: i64,
}

/// A temporary speed restriction.
#[derive(Clone, Copy, Serialize)]
pub struct RestrictionLine {
    /// NID_TSR; 255 is never revoked.
    pub number: u64,
    /// Its first centimetre.
    pub start_cm: i64,
    /// The first centimetre after it.
    pub end_cm: i64,
    /// Its speed, in metres per hour.
    pub speed_m_per_h: u32,
    /// Whether it ends for the front, not for the rear.
    pub ends_for_front: bool,
}

fn link_line(announcement: &Announcement) -> LinkLine {
    LinkLine {
        announcement: announcement.number,
        country: announcement.group.country.number(),
        group: announcement.group.number.number(),
        place_cm: announcement.place.get(),
        accuracy_cm: announcement.accuracy.accuracy().get(),
        direction: announcement.direction,
        reaction: announcement.reaction,
    }
}

/// The announced groups that are left.
pub(crate) fn link_lines(
    alloc: Global,
    announcements: &[Announcement],
) -> Result<Vec<LinkLine>, AllocError> {
    let mut lines = Vec::new(alloc);
    for announcement in announcements {
        lines.push(link_line(announcement))?;
    }
    Ok(lines)
}

/// A place in centimetres, if there is one.
pub(crate) fn optional_cm(place: Option<Cm>) -> Option<i64> {
    place.map(|place| place.get())
}

fn area_speed(speed: AreaSpeed) -> Option<u32> {
    match speed {
        AreaSpeed::Speed(step) => Some(step.speed().get()),
        AreaSpeed::National => None,
    }
}

fn area_line(area: &Area) -> AreaLine {
    AreaLine {
        area: area.mode,
        start_cm: area.start.get(),
        end_cm: optional_cm(area.end),
        speed_m_per_h: area_speed(area.speed),
        acknowledgement_cm: area.acknowledgement_from.get(),
    }
}

/// The mode areas.
pub(crate) fn area_lines(alloc: Global, areas: &[Area]) -> Result<Vec<AreaLine>, AllocError> {
    let mut lines = Vec::new(alloc);
    for area in areas {
        lines.push(area_line(area))?;
    }
    Ok(lines)
}

fn restriction_line(restriction: &Restriction) -> RestrictionLine {
    RestrictionLine {
        number: restriction.number.number(),
        start_cm: restriction.start.get(),
        end_cm: restriction.start.get() + i64::from(restriction.length.get()),
        speed_m_per_h: restriction.speed.get(),
        ends_for_front: matches!(restriction.delay, TrainLengthDelay::NotApplied),
    }
}

/// The restrictions in force.
pub(crate) fn restriction_lines(
    alloc: Global,
    restrictions: &[Restriction],
) -> Result<Vec<RestrictionLine>, AllocError> {
    let mut lines = Vec::new(alloc);
    for restriction in restrictions {
        lines.push(restriction_line(restriction))?;
    }
    Ok(lines)
}

/// The numbers of countries.
pub(crate) fn countries_of(alloc: Global, countries: &[Country]) -> Result<Vec<u64>, AllocError> {
    let mut numbers = Vec::new(alloc);
    for country in countries {
        numbers.push(country.number())?;
    }
    Ok(numbers)
}
