//! What is known of train and track that takes no memory: place, groups, links, authority, areas and others.
ghost use Rattle.std.specs.Prelude.{◌≡◌, []};
ghost use Rattle.areas.specs.Areas.{stored};
ghost use Rattle.authority.specs.Known.{known as known_authority};
ghost use Rattle.balise_groups.specs.Groups.{known as known_groups};
ghost use Rattle.linking.specs.Linking.{known as known_links};
ghost use Rattle.national.specs.InForce.{known as known_values};
ghost use Rattle.track_picture.specs.Columns.{columns_of};

use crate::happened::Happened;
use areas::{AnnouncedLevel, Areas};
use authority::Authority;
use balise_groups::Assembler;
use linking::Links;
use national::{CountryValues, National};
use odometry::Place;
use std::marker::Model;
use units::{Mph, Ms};
use vars::GroupIdentity;

/// What is known but for the restrictions and the profiles of the track: it takes no memory.
#[derive(Drop)]
pub struct Parts {
    /// Where the train's front is.
    pub place: Place,
    /// The group of the last fix.
    pub group: Option<GroupIdentity>,
    /// The speed of the last reading, in metres per hour.
    pub speed: Mph,
    /// The group being read, and the one that closed last.
    pub groups: Assembler,
    /// The announced groups that are left.
    pub links: Links,
    /// The national values in force and announced.
    pub national: National,
    /// The last moment of the clock, in milliseconds.
    pub moment: Ms,
    /// The movement authority.
    pub authority: Authority,
    /// The mode areas.
    pub areas: Areas,
    /// The announced level.
    pub level: AnnouncedLevel,
    /// What the last event brought about.
    pub happened: Happened,
    /// Whether an authority whose speed is 0 was used in the last event.
    pub stopped: bool,
}

impl Model for Parts {
    ghost use Rattle.track_picture.specs.StandsFor.{KnownTrack};

    ghost Value = { KnownTrack };

    ghost view = { λ p. record {
      place = p.place;
      group = p.group;
      speed = p.speed;
      groups = p.groups;
      links = p.links;
      national = p.national;
      moment = p.moment;
      authority = p.authority;
      areas = p.areas;
      level = p.level;
      happened = p.happened;
      stopped = p.stopped;
    } };
}

// The parts that are large, as a life begins. Each stands out of line: so it is made in its place, and the compiler
// takes none of them apart, whose pieces it would lay on the stack.
#[inline(never)]
fn no_groups() -> Assembler
    ensures { result ≡ known_groups [] }
{
    Assembler::new()
}

#[inline(never)]
fn no_links() -> Links
    ensures { result ≡ known_links [] }
{
    Links::new()
}

#[inline(never)]
fn values_kept(kept: CountryValues) -> National
    ensures { result ≡ known_values kept [] }
{
    National::kept(kept)
}

#[inline(never)]
fn no_authority() -> Authority
    ensures { result ≡ known_authority [] }
{
    Authority::new()
}

#[inline(never)]
fn no_areas() -> Areas
    ensures { result ≡ stored [] }
{
    Areas::new()
}

impl Parts {
    /// What is known as a life begins.
    pub fn new(kept: CountryValues) -> Self
        ensures { result ≡ columns_of (record { kept = kept; entries = [] }) }
    {
        Parts {
            place: Place::new(),
            group: None,
            speed: Mph::new(0).unwrap(),
            groups: no_groups(),
            links: no_links(),
            national: values_kept(kept),
            moment: Ms::new(0).unwrap(),
            authority: no_authority(),
            areas: no_areas(),
            level: AnnouncedLevel::new(),
            happened: Happened::NOTHING,
            stopped: false,
        }
    }

    /// An equal value.
    pub fn copy(&self) -> Self
        ensures { result ≡ self.now }
    {
        Parts {
            place: self.place,
            group: self.group,
            speed: self.speed,
            groups: self.groups.copy(),
            links: self.links.copy(),
            national: self.national.copy(),
            moment: self.moment,
            authority: self.authority.copy(),
            areas: self.areas.copy(),
            level: self.level,
            happened: self.happened,
            stopped: self.stopped,
        }
    }
}
