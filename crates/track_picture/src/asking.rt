//! What is known, part by part.
ghost use Rattle.std.specs.Prelude.{◌≡◌};
ghost use Rattle.balise_groups.specs.Groups.{being_read};

use crate::happened::Happened;
use crate::state::TracksideOver;
use crate::stores::ProfileStores;
use areas::{AnnouncedLevel, Areas};
use authority::Authority;
use linking::Links;
use national::National;
use odometry::Place;
use track_store::Restrictions;
use units::{Mph, Ms};
use vars::GroupIdentity;

impl<T: ProfileStores> TracksideOver<T> {
    /// Where the train is.
    pub fn place(&self) -> Place
        ensures { result ≡ self.now.parts.place }
    {
        self.parts.place
    }

    /// The group of the last fix in this life; None before the first.
    pub fn group_of_fix(&self) -> Option<GroupIdentity>
        ensures { result ≡ self.now.parts.group }
    {
        self.parts.group
    }

    /// The speed of the last reading, in metres per hour; 0 before the first.
    pub fn speed(&self) -> Mph
        ensures { result ≡ self.now.parts.speed }
    {
        self.parts.speed
    }

    /// The moment of this life, in milliseconds; 0 before the first of the clock.
    pub fn moment(&self) -> Ms
        ensures { result ≡ self.now.parts.moment }
    {
        self.parts.moment
    }

    /// The group that is being read; None where none is.
    pub fn group_being_read(&self) -> Option<GroupIdentity>
        ensures { result ≡ being_read self.now.parts.groups }
    {
        self.parts.groups.group()
    }

    /// The announced groups that are left.
    pub fn links(&self) -> &Links
        ensures { result.now ≡ self.now.parts.links }
    {
        &self.parts.links
    }

    /// The national values.
    pub fn national(&self) -> &National
        ensures { result.now ≡ self.now.parts.national }
    {
        &self.parts.national
    }

    /// The restrictions in force.
    pub fn restrictions(&self) -> &Restrictions
        ensures { result.now ≡ self.now.restrictions }
    {
        &self.restrictions
    }

    /// The authority.
    pub fn authority(&self) -> &Authority
        ensures { result.now ≡ self.now.parts.authority }
    {
        &self.parts.authority
    }

    /// The mode areas.
    pub fn areas(&self) -> &Areas
        ensures { result.now ≡ self.now.parts.areas }
    {
        &self.parts.areas
    }

    /// The announced level.
    pub fn level(&self) -> AnnouncedLevel
        ensures { result ≡ self.now.parts.level }
    {
        self.parts.level
    }

    /// What the last event brought about.
    pub fn happened(&self) -> Happened
        ensures { result ≡ self.now.parts.happened }
    {
        self.parts.happened
    }

    /// Whether an authority whose speed is 0 (V_MAIN) was used in the last event.
    pub fn is_stopped(&self) -> bool
        ensures { result ≡ self.now.parts.stopped }
    {
        self.parts.stopped
    }

    /// The gradients, in per mille.
    pub fn gradients(&self) -> &T::Gradients
        ensures { result.now ≡ self.now.gradients }
    {
        &self.gradients
    }

    /// The static speeds.
    pub fn speeds(&self) -> &T::Speeds
        ensures { result.now ≡ self.now.speeds }
    {
        &self.speeds
    }
}
