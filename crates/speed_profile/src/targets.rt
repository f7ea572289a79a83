//! All that is a target ahead of a train.
ghost use Rattle.std.specs.Prelude.{◌≡◌, ◌++◌};
ghost use Rattle.std.specs.Iterator.{at_most};
ghost use Rattle.track_store.specs.Profiles.{listed};
ghost use Rattle.speed_profile.specs.Ahead.{over_ahead, static_targets, restriction_targets, area_targets};
ghost use Rattle.speed_profile.specs.Track.{speeds_along};
ghost use Rattle.speed_profile.specs.Targets.{Describes};

mod inside;
mod others;
mod restricted;
mod speeds;

use crate::{Bounds, CategorySpeeds, Track};
use braking::Target;
pub use others::OtherTargets;
pub use speeds::SpeedTargets;
use std::marker::Model;
use track_store::Profile;
use units::Cm;

/// What a train must brake for ahead, one target after another: the start of each piece of the static speeds, the
/// nearest first, where one without a speed is a stop if it begins before the end of the authority; each restriction
/// and each mode area at the first centimetre that it covers there; and a last target (SUBSET-026, 3.13; this project's
/// profile).
#[derive(Drop)]
pub struct Targets<'a, S: Profile<CategorySpeeds>> {
    speeds: SpeedTargets<'a, S>,
    others: OtherTargets<'a>,
}

impl<'a, S: Profile<CategorySpeeds>> Model for Targets<'a, S> {
    ghost use Rattle.std.specs.Prelude.{◌++◌, ◌+◌};
    ghost use Rattle.speed_profile.specs.Targets.{Left};

    ghost Value = { Left };

    ghost view = { λ t. record {
      targets = t.speeds.targets ++ t.others.targets;
      most = t.speeds.most + t.others.most;
      speeds_from = t.speeds.speeds_from;
    } };
}

impl<'a, S: Profile<CategorySpeeds>> Targets<'a, S> {
    /// Those ahead of a front.
    pub(crate) fn new(
        front: Cm,
        bounds: &'a Bounds,
        track: &'a Track<'a, S>,
        last: Option<Target>,
    ) -> Targets<'a, S>
        ensures { let along = speeds_along S.value track.now in
            result.targets ≡ over_ahead front (static_targets bounds.now along.static)
            ++ (over_ahead front (restriction_targets along.restrictions.mark along.restrictions.restrictions)
            ++ (over_ahead front (area_targets along.national along.areas) ++ listed last)) }
    {
        Targets {
            speeds: SpeedTargets::new(front, bounds, track.speeds),
            others: OtherTargets::new(front, track, last),
        }
    }

    /// The static speeds, the nearest first, and the others in any order.
    pub(crate) fn into_kinds(self) -> (SpeedTargets<'a, S>, OtherTargets<'a>)
        ensures { result.0.targets ++ result.1.targets ≡ self.entry.targets }
    {
        (self.speeds, self.others)
    }
}

impl<'a, S: Profile<CategorySpeeds>> Iterator for Targets<'a, S> {
    type Item = Target;

    ghost next_gives = { Describes };

    ghost remaining = { λ left. at_most left.most };

    fn next(&mut self) -> Option<Target> {
        if let Some(target) = self.speeds.next() {
            return Some(target);
        }
        self.others.next()
    }
}
