//! The speed that holds for what lies ahead (this project's profile).
ghost use Rattle.std.specs.Prelude.{◌≡◌, ◌≤◌, ◌≤ℤ◌, ◌++◌, None, Some, List};
ghost use Rattle.std.specs.Iterator.{Drains};
ghost use Rattle.track_store.specs.Profiles.{listed};
ghost use Rattle.braking.specs.declared.target.Target.{Target as RequestedTarget};
ghost use Rattle.braking.specs.Approaches.{lowered_by};
ghost use Rattle.speed_profile.specs.Ahead.{targets_ahead, permitted_ahead, setting_out};
ghost use Rattle.speed_profile.specs.Targets.{AskTheSame, Describes};
ghost use Rattle.speed_profile.specs.Track.{speeds_along};

use crate::nearest::lower_by_all;
use crate::{Bounds, CategorySpeeds, Targets, Track};
use braking::{Approach, Brakes, Target};
use track_store::Profile;
use units::{Cm, Mph, Permille};

/// What lies ahead of a train, and how it brakes (SUBSET-026, 3.13; this project's profile).
#[derive(Drop)]
pub struct Ahead<'a, S, G> {
    /// The train's maximum safe front, in centimetres.
    pub front: Cm,
    /// What limits the train wherever it is.
    pub bounds: &'a Bounds,
    /// The speeds along the track.
    pub track: &'a Track<'a, S>,
    /// The gradients, in per mille.
    pub gradient: &'a G,
    /// What is known of the train's brakes.
    pub brakes: &'a Brakes,
}

impl<'a, S: Profile<CategorySpeeds>, G: Profile<Permille>> Ahead<'a, S, G> {
    /// The greatest speed up to a limit from which the train can brake for all that lies ahead (this project's
    /// profile): for each static speed and each restriction, whatever its Q_FRONT, and for each mode area; to a stop at
    /// a centimetre without a static speed before the end of the authority, where one is known; and for a last target.
    /// Takes no memory; its cost counts the changes of the profiles, the restrictions and the areas, and no
    /// centimetres.
    pub fn permitted(&self, limit: Mph, last: Option<Target>) -> Mph
        ensures { result ≡ permitted_ahead self.now.front limit last self.now.bounds.now (speeds_along S.value self.now.track.now)
            (G.value self.now.gradient.now) self.now.brakes.now }
    {
        self.approach(limit, last).speed()
    }

    /// What `permitted` answers for one last target, and what it answers for another one. What lies before is gone
    /// through once for both.
    pub fn permitted_for_either(&self, limit: Mph, one: Target, other: Target) -> (Mph, Mph)
        ensures one { result.0 ≡ permitted_ahead self.now.front limit (Some one) self.now.bounds.now
            (speeds_along S.value self.now.track.now) (G.value self.now.gradient.now) self.now.brakes.now }
        ensures other { result.1 ≡ permitted_ahead self.now.front limit (Some other) self.now.bounds.now
            (speeds_along S.value self.now.track.now) (G.value self.now.gradient.now) self.now.brakes.now }
    {
        let is_first = one.place < other.place
            || (one.place == other.place && one.speed <= other.speed);
        if is_first {
            self.permitted_in_order(limit, one, other)
        } else {
            let (to_other, to_one) = self.permitted_in_order(limit, other, one);
            (to_one, to_other)
        }
    }

    // The same, as is cheapest for one that lies no farther than the other one.
    fn permitted_in_order(&self, limit: Mph, near: Target, far: Target) -> (Mph, Mph)
        ensures near { result.0 ≡ permitted_ahead self.now.front limit (Some near) self.now.bounds.now
            (speeds_along S.value self.now.track.now) (G.value self.now.gradient.now) self.now.brakes.now }
        ensures far { result.1 ≡ permitted_ahead self.now.front limit (Some far) self.now.bounds.now
            (speeds_along S.value self.now.track.now) (G.value self.now.gradient.now) self.now.brakes.now }
    {
        if near.place == far.place && near.speed <= far.speed {
            self.permitted_at_one_place(limit, near, far)
        } else {
            self.permitted_apart(limit, near, far)
        }
    }

    // The same where one asks for all that the other one asks for: that one is gone to among those that lie ahead, and
    // the one that asks for more after all of them.
    fn permitted_at_one_place(&self, limit: Mph, near: Target, far: Target) -> (Mph, Mph)
        requires place { near.place ≤ℤ far.place }
        requires speed { near.speed ≤ far.speed }
        ensures near { result.0 ≡ permitted_ahead self.now.front limit (Some near) self.now.bounds.now
            (speeds_along S.value self.now.track.now) (G.value self.now.gradient.now) self.now.brakes.now }
        ensures far { result.1 ≡ permitted_ahead self.now.front limit (Some far) self.now.bounds.now
            (speeds_along S.value self.now.track.now) (G.value self.now.gradient.now) self.now.brakes.now }
    {
        let mut approach = self.approach(limit, Some(far));
        let to_far = approach.speed();
        approach.lower(&near);
        (approach.speed(), to_far)
    }

    // The same for any two: both go on from what was summed for all that lies ahead.
    fn permitted_apart(&self, limit: Mph, near: Target, far: Target) -> (Mph, Mph)
        ensures near { result.0 ≡ permitted_ahead self.now.front limit (Some near) self.now.bounds.now
            (speeds_along S.value self.now.track.now) (G.value self.now.gradient.now) self.now.brakes.now }
        ensures far { result.1 ≡ permitted_ahead self.now.front limit (Some far) self.now.bounds.now
            (speeds_along S.value self.now.track.now) (G.value self.now.gradient.now) self.now.brakes.now }
    {
        let approach = self.approach(limit, None);
        approach.lowered_for_either(&near, &far)
    }

    /// All that is a target ahead, and a last target where it is given, one after another. A speed fits those that come
    /// exactly where it fits a target at each centimetre with a static speed, a restriction or an area, a stop at each
    /// without a static speed before the end of the authority, and the last target. Takes no memory.
    pub fn targets(&self, last: Option<Target>) -> Targets<'a, S>
        ensures left { AskTheSame result.targets
            (targets_ahead self.now.front self.now.bounds.now (speeds_along S.value self.now.track.now) ++ listed last) }
        ensures reported { (reported : List RequestedTarget) → Drains Describes result reported → AskTheSame reported
            (targets_ahead self.now.front self.now.bounds.now (speeds_along S.value self.now.track.now) ++ listed last) }
    {
        Targets::new(self.front, self.bounds, self.track, last)
    }

    // The approach to all of them.
    fn approach(&self, limit: Mph, last: Option<Target>) -> Approach<'a, G>
        ensures { result ≡ lowered_by (G.value self.now.gradient.now)
            (targets_ahead self.now.front self.now.bounds.now (speeds_along S.value self.now.track.now) ++ listed last)
            (setting_out self.now.front limit self.now.gradient.now self.now.brakes.now) }
    {
        let mut approach = Approach::new(self.front, limit, self.gradient, self.brakes);
        let (mut speeds, mut others) = self.targets(last).into_kinds();
        lower_by_all(&mut approach, &mut speeds, &mut others);
        approach
    }
}
