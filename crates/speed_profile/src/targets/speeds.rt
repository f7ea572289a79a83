//! The static speeds ahead as targets.
ghost use Rattle.std.specs.Prelude.{◌≡◌, ◌<◌, [], ◌++◌, None, IfSome};
ghost use Rattle.std.specs.Iterator.{at_most};
ghost use Rattle.track_store.specs.Profiles.{listed};
ghost use Rattle.speed_profile.specs.Ahead.{over_ahead, static_targets};
ghost use Rattle.speed_profile.specs.Targets.{Describes, AskTheSame, AskTheSameBeyond};

use crate::starts::{next_after, static_target};
use crate::{Bounds, CategorySpeeds};
use braking::Target;
use std::marker::Model;
use track_store::Profile;
use units::Cm;

/// Each piece of the static speeds ahead of a front at its first centimetre, the nearest first.
#[derive(Drop)]
pub struct SpeedTargets<'a, S: Profile<CategorySpeeds>> {
    bounds: &'a Bounds,
    speeds: &'a S,
    // Where those begin that weren't looked at yet.
    start: Option<Cm>,
    // What finds the piece there sooner.
    near: usize,
}

impl<'a, S: Profile<CategorySpeeds>> Model for SpeedTargets<'a, S> {
    ghost use Rattle.speed_profile.specs.Ahead.{static_targets};
    ghost use Rattle.speed_profile.specs.Starts.{rest, left};
    ghost use Rattle.speed_profile.specs.Targets.{Left};

    ghost Value = { Left };

    ghost view = { λ s. record { targets = rest (static_targets s.bounds.now (S.value s.speeds.now)) s.start; most = left s.start; speeds_from = s.start } };
}

impl<'a, S: Profile<CategorySpeeds>> SpeedTargets<'a, S> {
    /// The static speeds ahead of a front.
    pub fn new(front: Cm, bounds: &'a Bounds, speeds: &'a S) -> SpeedTargets<'a, S>
        ensures { result.targets ≡ over_ahead front (static_targets bounds.now (S.value speeds.now)) }
    {
        SpeedTargets {
            bounds,
            speeds,
            start: next_after(front),
            near: 0,
        }
    }

    /// Where those begin that are left; None where none is.
    pub fn start(&self) -> Option<Cm>
        ensures place { result ≡ self.now.speeds_from }
        ensures none { result ≡ None → self.now ≡ record { targets = []; most = 0; speeds_from = None } }
    {
        self.start
    }

    /// What the nearest piece asks for, if it asks for anything; then it is left no longer.
    pub fn next_piece(&mut self) -> Option<Target>
        ensures requested { AskTheSame self.old.targets (listed result ++ self.new.targets) }
        ensures fewer { IfSome self.old.speeds_from (λ place. self.new.most < self.old.most) }
        ensures none { self.old.speeds_from ≡ None → result ≡ None }
    {
        let place = self.start?;
        let here = self.speeds.piece(place, self.near);
        self.start = here.next;
        self.near = here.near;
        static_target(self.bounds, place, here.value)
    }

    /// Leaves out those that are left: all lie where they begin or farther ahead.
    pub fn skip_all(&mut self)
        ensures asks { AskTheSameBeyond self.old.speeds_from self.old.targets [] }
        ensures none { self.new ≡ record { targets = []; most = 0; speeds_from = None } }
    {
        self.start = None;
    }
}

impl<'a, S: Profile<CategorySpeeds>> Iterator for SpeedTargets<'a, S> {
    type Item = Target;

    ghost next_gives = { Describes };

    ghost remaining = { λ left. at_most left.most };

    fn next(&mut self) -> Option<Target> {
        while self.start().is_some() {
            let target = self.next_piece();
            if target.is_some() {
                return target;
            }
        }
        None
    }
}
