//! The restrictions ahead as targets.
ghost use Rattle.std.specs.Prelude.{◌≡◌};
ghost use Rattle.std.specs.Iterator.{at_most};
ghost use Rattle.speed_profile.specs.Ahead.{over_ahead, restriction_targets};
ghost use Rattle.speed_profile.specs.Targets.{Describes, AskTheSameOf};

use crate::starts::first_target;
use braking::{Approach, Target};
use std::marker::Model;
use track_store::{Profile, Restriction, Restrictions};
use units::{Cm, Permille};

/// Each restriction at the first centimetre that it covers ahead of a front.
#[derive(Drop)]
pub struct RestrictionTargets<'a> {
    front: Cm,
    mark: Cm,
    // Those that weren't looked at yet.
    left: &'a [Restriction],
}

impl<'a> Model for RestrictionTargets<'a> {
    ghost use Rattle.std.specs.Prelude.{length, None};
    ghost use Rattle.speed_profile.specs.Ahead.{over_ahead, restriction_targets};
    ghost use Rattle.speed_profile.specs.Targets.{Left};

    ghost Value = { Left };

    ghost view = { λ r. record { targets = over_ahead r.front (restriction_targets r.mark r.left.now); most = length r.left.now; speeds_from = None } };
}

impl<'a> RestrictionTargets<'a> {
    /// The restrictions that are covered ahead of a front.
    pub fn new(front: Cm, restrictions: &'a Restrictions) -> RestrictionTargets<'a>
        ensures { result.targets ≡ over_ahead front (restriction_targets restrictions.now.track.mark restrictions.now.track.restrictions) }
    {
        RestrictionTargets {
            front,
            mark: restrictions.mark(),
            left: restrictions.as_slice(),
        }
    }

    /// Whether each was looked at.
    pub fn is_empty(&self) -> bool {
        self.left.is_empty()
    }

    /// Leaves out those that come next, up to one that a train isn't known to fit.
    pub fn skip_fitting<G: Profile<Permille>>(&mut self, approach: &Approach<'_, G>)
        ensures { AskTheSameOf (G.value approach.now.gradient) approach.now self.old.targets self.new.targets }
    {
        while let Some((first, others)) = self.left.split_first() {
            if !approach.surely_fits(&start_of(first)) {
                break;
            }
            self.left = others;
        }
    }
}

// Where a restriction begins, with its speed.
fn start_of(restriction: &Restriction) -> Target
    ensures { result ≡ record { place = restriction.now.start; speed = restriction.now.speed } }
{
    Target {
        place: restriction.start,
        speed: restriction.speed,
    }
}

impl<'a> Iterator for RestrictionTargets<'a> {
    type Item = Target;

    ghost next_gives = { Describes };

    ghost remaining = { λ left. at_most left.most };

    fn next(&mut self) -> Option<Target> {
        while let Some((first, others)) = self.left.split_first() {
            self.left = others;
            let target = first_target(self.front, self.mark, first);
            if target.is_some() {
                return target;
            }
        }
        None
    }
}
