//! One announced group: where and how it is to be found, and what its miss asks for.
ghost use Rattle.std.specs.Prelude.{◌≡◌, ◌≤◌, ◌^◌, if◌then◌else◌};
ghost use Rattle.std.specs.Int.RustNames.{unsigned_abs};
ghost use Rattle.linking.specs.Linking.{first_place, last_place, is_passed_by, no_effect, service, combined_with, effect_of};
ghost use Rattle.linking.specs.Judging.{is_of, is_too_early, is_passed_wrongly, is_before};

use crate::{Effect, GroupRead};
use units::Cm;
use vars::{
    Country, GroupIdentity, GroupNumber, LinkOrientation, LinkReaction, LocationAccuracy, Variable,
};

/// A balise group that a list of links (packet 5; SUBSET-026, 3.4.4) announces.
#[derive(Clone, Copy)]
pub struct Announcement {
    /// Its number in its list, from 0, as `Links::replace` gives it.
    pub number: u8,
    /// Which group it is.
    pub group: GroupIdentity,
    /// Where the group is to lie, in centimetres of the life.
    pub place: Cm,
    /// How far it may lie from there, to either side, in metres (Q_LOCACC).
    pub accuracy: LocationAccuracy,
    /// The direction in which the train is to pass it (Q_LINKORIENTATION).
    pub direction: LinkOrientation,
    /// What follows where it isn't found as announced (Q_LINKREACTION).
    pub reaction: LinkReaction,
}

/// Fills unused elements.
impl Default for Announcement {
    fn default() -> Announcement {
        Announcement {
            number: 0,
            group: GroupIdentity {
                country: Country::default(),
                number: GroupNumber::of_number(0).unwrap(),
            },
            place: Cm::ZERO,
            accuracy: LocationAccuracy::of_number(0).unwrap(),
            direction: LinkOrientation::Reverse,
            reaction: LinkReaction::NoReaction,
        }
    }
}

impl Announcement {
    /// Whether it announces this group.
    pub(crate) fn is_of(&self, group: &GroupIdentity) -> bool
        ensures { result ≡ is_of group.now self.now }
    {
        self.group == *group
    }

    // The first place at which the group may lie.
    fn first_place(&self) -> i64
        ensures value { result ≡ first_place self.now }
        ensures near { unsigned_abs result ≤ 2 ^ 43 }
    {
        self.place.get() - self.accuracy.accuracy().get()
    }

    // The last place at which the group may lie.
    fn last_place(&self) -> i64
        ensures value { result ≡ last_place self.now }
        ensures near { unsigned_abs result ≤ 2 ^ 43 }
    {
        self.place.get() + self.accuracy.accuracy().get()
    }

    /// Whether a group was read before the place where it is announced.
    pub(crate) fn is_too_early(&self, group: &GroupRead) -> bool
        ensures { result ≡ is_too_early group.now self.now }
    {
        group.max_front() < self.first_place()
    }

    /// Whether a group that was passed in a direction is known to have been passed in another one than it announces.
    pub fn is_wrong_way(&self, direction: Option<LinkOrientation>) -> bool
        ensures { result ≡ is_passed_wrongly direction self.now }
    {
        match direction {
            None => false,
            Some(direction) => self.direction != direction,
        }
    }

    /// Whether it comes before a number in the list.
    pub(crate) fn is_before(&self, number: u8) -> bool
        ensures { result ≡ is_before number self.now }
    {
        self.number < number
    }

    /// Whether the minimum safe front lies beyond the place where it is announced.
    pub(crate) fn is_passed_by(&self, min_front: Cm) -> bool
        ensures { result ≡ is_passed_by min_front self.now }
    {
        self.last_place() < min_front.get()
    }

    /// What it asks for where it is missed, and where another was missed before.
    pub(crate) fn miss(&self, has_missed: bool) -> Effect
        ensures { result ≡ combined_with (effect_of self.now.reaction) (if has_missed then service else no_effect) }
    {
        let second = if has_missed {
            Effect::SERVICE
        } else {
            Effect::NONE
        };
        Effect::of(self.reaction).combined_with(second)
    }
}
