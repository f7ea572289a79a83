//! What the kernel knows of the train and the track after an event (`docs/reference/json.md`).

use crate::known_lists::{
    AreaLine, LinkLine, RestrictionLine, area_lines, countries_of, link_lines, optional_cm,
    restriction_lines,
};
use areas::AnnouncedLevel;
use authority::{Authority, Release};
use driver::{Datum, TrainData};
use image_lines::{NationalObject, Status, TrainObject, write_level};
use kernel::State;
use mode_table::TrainLevel;
use odometry::Place;
use reasons::Reasoning;
use serde::Serialize;
use std::alloc::{AllocError, Global};
use vars::{GroupIdentity, Variable};

/// A balise group.
#[derive(Clone, Copy, Serialize)]
pub struct GroupName {
    /// NID_C.
    pub country: u64,
    /// NID_BG.
    pub group: u64,
}

/// Where the front is thought to be, in centimetres.
#[derive(Clone, Copy, Serialize)]
pub struct FrontLine {
    /// The estimated place.
    pub place_cm: i64,
    /// How far that may be wrong to either side.
    pub uncertainty_cm: i64,
    /// How far the estimate is beyond the place of the last fix.
    pub since_fix_cm: i64,
}

/// The movement authority.
#[derive(Clone, Copy, Serialize)]
pub struct AuthorityLine {
    /// The end of authority, in centimetres, with the sections whose timers have run out taken back.
    pub end_cm: i64,
    /// The speed allowed at the end, in metres per hour: V_LOA until T_LOA runs out.
    pub end_speed_m_per_h: u32,
    /// The supervised location, in centimetres: the end of the overlap until T_OL runs out, else the danger point, else
    /// the end.
    pub supervised_cm: i64,
    /// The release speed, in metres per hour; None where it is the national value.
    pub release_m_per_h: Option<u32>,
    /// V_MAIN, in metres per hour.
    pub main_speed_m_per_h: u32,
}

/// The announced level.
#[derive(Clone, Copy, Serialize)]
pub struct LevelLine {
    /// Its number.
    #[serde(serialize_with = "write_level")]
    pub level: Option<TrainLevel>,
    /// Where it comes into force, in centimetres; None wherever the train is.
    pub start_cm: Option<i64>,
    /// How far before that an acknowledgement is asked for, in centimetres.
    pub acknowledgement_cm: u32,
}

/// The train data that were entered last.
#[derive(Drop, Serialize)]
pub struct TrainLine {
    /// Their values.
    #[serde(flatten)]
    pub values: TrainObject,
    /// Whether they are valid.
    pub status: Status,
}

/// What is known after an event.
#[derive(Drop, Serialize)]
pub struct KnownLine {
    /// Where the front is thought to be.
    #[serde(flatten)]
    pub front: FrontLine,
    /// The group of the last fix; None before the first.
    pub group_of_fix: Option<GroupName>,
    /// The group that is being read; None where none is.
    pub group_being_read: Option<GroupName>,
    /// The announced groups that are left, in the order of their list.
    pub links: Vec<LinkLine>,
    /// Whether a group was missed since the last that was accepted as announced.
    pub has_missed: bool,
    /// Whether nothing that is known has a place, so that a group that isn't announced makes a fix too.
    pub is_free: bool,
    /// The movement authority; None where none is stored.
    pub authority: Option<AuthorityLine>,
    /// The mode areas, in the order of their packet.
    pub areas: Vec<AreaLine>,
    /// The announced level; None where none is.
    pub announced_level: Option<LevelLine>,
    /// The restrictions in force.
    pub restrictions: Vec<RestrictionLine>,
    /// The national values in force.
    pub national_values: NationalObject,
    /// The countries NID_C that these are for.
    pub countries: Vec<u64>,
    /// Where the announced national values come into force, in centimetres; None where none are announced.
    pub announced_values_cm: Option<i64>,
    /// The train data; None where none were entered.
    pub train: Option<TrainLine>,
}

fn group_name(group: Option<GroupIdentity>) -> Option<GroupName> {
    let group = group?;
    Some(GroupName {
        country: group.country.number(),
        group: group.number.number(),
    })
}

fn front_line(place: &Place) -> FrontLine {
    FrontLine {
        place_cm: place.estimate().get(),
        uncertainty_cm: place.uncertainty().get(),
        since_fix_cm: place.since_fix().get(),
    }
}

fn release_of(release: Release) -> Option<u32> {
    match release {
        Release::Speed(speed) => Some(speed.get()),
        Release::National => None,
    }
}

fn authority_line(authority: &Authority) -> Option<AuthorityLine> {
    match (authority.end(), authority.main_speed()) {
        (Some(end), Some(main_speed)) => Some(AuthorityLine {
            end_cm: end.place.get(),
            end_speed_m_per_h: end.speed.get(),
            supervised_cm: end.location.get(),
            release_m_per_h: release_of(end.release),
            main_speed_m_per_h: main_speed.get(),
        }),
        _ => None,
    }
}

fn level_line(level: AnnouncedLevel) -> Option<LevelLine> {
    let announced = level.announced()?;
    Some(LevelLine {
        level: Some(announced.level),
        start_cm: optional_cm(announced.start),
        acknowledgement_cm: announced.acknowledgement.get(),
    })
}

fn train_line(train: Datum<TrainData>) -> Option<TrainLine> {
    let (train, status) = match train {
        Datum::Unknown => return None,
        Datum::Valid(train) => (train, Status::Valid),
        Datum::Invalid(train) => (train, Status::Invalid),
    };
    Some(TrainLine {
        values: TrainObject::of(train),
        status,
    })
}

// What is known in a life.
fn known_line(alloc: Global, state: &State) -> Result<KnownLine, AllocError> {
    let track = state.track();

    // The lists come first: at each `?` few values are owned, so that the proof is short.
    let links_left = link_lines(alloc, track.links().left())?;
    let mode_areas = area_lines(alloc, track.areas().as_slice())?;
    let restrictions_in_force = restriction_lines(alloc, track.restrictions().as_slice())?;
    let for_countries = countries_of(alloc, track.national().countries())?;
    Ok(KnownLine {
        front: front_line(&track.place()),
        group_of_fix: group_name(track.group_of_fix()),
        group_being_read: group_name(track.group_being_read()),
        links: links_left,
        has_missed: track.links().has_missed(),
        is_free: track.is_free(),
        authority: authority_line(track.authority()),
        areas: mode_areas,
        announced_level: level_line(track.level()),
        restrictions: restrictions_in_force,
        national_values: NationalObject::of(track.national().values()),
        countries: for_countries,
        announced_values_cm: optional_cm(track.national().announced_start()),
        train: train_line(state.driver().train_data()),
    })
}

/// What is known after the last event of a life, where that is asked for. The error is that of memory.
pub(crate) fn known_if(
    alloc: Global,
    is_requested: bool,
    life: &Reasoning,
) -> Result<Option<KnownLine>, AllocError> {
    if !is_requested {
        return Ok(None);
    }
    Ok(Some(known_line(alloc, life.state())?))
}
