//! The restrictions and the mode areas ahead, and a last target.
ghost use Rattle.std.specs.Prelude.{◌≡◌, ◌++◌};
ghost use Rattle.std.specs.Iterator.{at_most};
ghost use Rattle.track_store.specs.Profiles.{listed};
ghost use Rattle.speed_profile.specs.Ahead.{over_ahead, restriction_targets, area_targets};
ghost use Rattle.speed_profile.specs.Track.{speeds_along};
ghost use Rattle.speed_profile.specs.Targets.{Describes, AskTheSameOf};

use super::inside::AreaTargets;
use super::restricted::RestrictionTargets;
use crate::{CategorySpeeds, Track};
use braking::{Approach, Target};
use std::marker::Model;
use track_store::Profile;
use units::{Cm, Permille};

/// Each restriction and each mode area at the first centimetre that it covers ahead of a front, and a last target, in
/// any order.
#[derive(Drop)]
pub struct OtherTargets<'a> {
    restricted: RestrictionTargets<'a>,
    inside: AreaTargets<'a>,
    last: Option<Target>,
}

impl<'a> Model for OtherTargets<'a> {
    ghost use Rattle.std.specs.Prelude.{◌++◌, ◌+◌, length, None};
    ghost use Rattle.track_store.specs.Profiles.{listed};
    ghost use Rattle.speed_profile.specs.Targets.{Left};

    ghost Value = { Left };

    ghost view = { λ t. record {
      targets = t.restricted.targets ++ (t.inside.targets ++ listed t.last);
      most = t.restricted.most + t.inside.most + length (listed t.last);
      speeds_from = None;
    } };
}

impl<'a> OtherTargets<'a> {
    /// Those ahead of a front.
    pub fn new<S: Profile<CategorySpeeds>>(
        front: Cm,
        track: &'a Track<'a, S>,
        last: Option<Target>,
    ) -> OtherTargets<'a>
        ensures { let along = speeds_along S.value track.now in
            result.targets ≡ over_ahead front (restriction_targets along.restrictions.mark along.restrictions.restrictions)
            ++ (over_ahead front (area_targets along.national along.areas) ++ listed last) }
    {
        OtherTargets {
            restricted: RestrictionTargets::new(front, track.restrictions),
            inside: AreaTargets::new(front, track.national, track.areas),
            last,
        }
    }

    /// Whether a restriction wasn't looked at yet.
    pub fn has_restrictions(&self) -> bool {
        !self.restricted.is_empty()
    }

    /// Leaves out the restrictions that come next, up to one that a train isn't known to fit.
    pub fn skip_fitting<G: Profile<Permille>>(&mut self, approach: &Approach<'_, G>)
        ensures { AskTheSameOf (G.value approach.now.gradient) approach.now self.old.targets self.new.targets }
    {
        self.restricted.skip_fitting(approach);
    }
}

impl<'a> Iterator for OtherTargets<'a> {
    type Item = Target;

    ghost next_gives = { Describes };

    ghost remaining = { λ left. at_most left.most };

    fn next(&mut self) -> Option<Target> {
        if let Some(target) = self.restricted.next() {
            return Some(target);
        }
        if let Some(target) = self.inside.next() {
            return Some(target);
        }
        self.last.take()
    }
}
