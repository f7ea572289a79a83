//! The permitted speed, target by target (this project's profile).
ghost use Rattle.std.specs.Prelude.{◌≡◌, ◌<◌, false, IsTrue};
ghost use Rattle.braking.specs.Braking.{fits, fits_all, greatest, IsSummed};
ghost use Rattle.braking.specs.Approaches.{lowered};

use crate::Target;
use crate::seeking::permitted_before;
use crate::speeds::{fits_summed, stopping_at_once, stops_within};
use crate::summed::Summed;
use brakes::Brakes;
use std::marker::Model;
use track_store::Profile;
use units::{Cm, Mph, Permille};

/// A train that takes one target ahead after another, and the greatest speed that fits those so far (this project's
/// profile). What the braking takes off is carried from one target to the next: for a target farther ahead only the
/// gradients between are gone through.
#[derive(Drop)]
pub struct Approach<'a, P: Profile<Permille>> {
    front: Cm,
    gradient: &'a P,
    brakes: &'a Brakes,
    speed: Mph,
    summed: Summed,
    // Where the train can stop, if that is known: the speed so far fits each target from there on.
    stop: Option<Cm>,
}

impl<'a, P: Profile<Permille>> Model for Approach<'a, P> {
    ghost use Rattle.braking.specs.Approaches.{Course, IsKnown};

    ghost Value = { Course P };

    ghost view = { λ a. record { front = a.front; gradient = a.gradient.now; brakes = a.brakes.now; speed = a.speed } };

    ghost invariant = { λ a. IsKnown a.front (P.value a.gradient.now) a.brakes.now a.speed a.summed a.stop };
}

impl<'a, P: Profile<Permille>> Approach<'a, P> {
    /// No target yet, for a train whose maximum safe front is at this place, in centimetres: the speed is the limit, in
    /// metres per hour. Takes no memory.
    pub fn new(front: Cm, limit: Mph, gradient: &'a P, brakes: &'a Brakes) -> Approach<'a, P>
        ensures { result ≡ record { front = front; gradient = gradient.now; brakes = brakes.now; speed = limit } }
    {
        let summed = Summed::none(front);
        Approach {
            front,
            gradient,
            brakes,
            speed: limit,
            summed,
            stop: None,
        }
    }

    /// An equal value.
    pub fn copy(&self) -> Approach<'a, P>
        ensures { result ≡ self.now }
    {
        Approach {
            front: self.front,
            gradient: self.gradient,
            brakes: self.brakes,
            speed: self.speed,
            summed: self.summed,
            stop: self.stop,
        }
    }

    /// The greatest speed up to the limit that fits all targets so far, in metres per hour; 0 where none does.
    pub fn speed(&self) -> Mph
        ensures { result ≡ self.now.speed }
    {
        self.speed
    }

    /// Whether the speed so far fits a target. What it summed for that is kept.
    pub fn fits(&mut self, target: &Target) -> bool
        ensures value { result ≡ fits self.old.front (P.value self.old.gradient) self.old.brakes target.now self.old.speed }
        ensures same { self.new ≡ self.old }
    {
        if self.surely_fits(target) {
            return true;
        }
        let (front, speed) = (self.front, self.speed);
        let (fits, sum) = fits_summed(
            front,
            speed,
            target,
            self.gradient,
            self.brakes,
            &self.summed,
        );
        self.keep(sum);
        fits
    }

    /// Looks whether the train comes to a stop on the gradient on which its brakes act: then each target from there on is
    /// known to fit. It costs the same whatever lies ahead.
    pub fn look_for_stop(&mut self)
        ensures { self.new ≡ self.old }
    {
        if let Some(sum) = stopping_at_once(self.front, self.speed, self.gradient, self.brakes) {
            self.keep(sum);
        }
    }

    /// Takes one more target: then the greatest speed up to the one so far that fits the target. A target whose speed
    /// is no less than the one so far costs nothing, nor does one after a place where the train is known to come to a
    /// stop.
    pub fn lower(&mut self, target: &Target)
        ensures { self.new ≡ lowered (P.value self.old.gradient) target.now self.old }
    {
        if !self.surely_fits(target) {
            self.seek(target);
        }
    }

    /// The speeds after one more target, and after another one in its place, in metres per hour. Where the first one lies
    /// before the end of what was summed last, what lies before it is summed once for both. It costs least where the
    /// first one is the nearer.
    pub fn lowered_for_either(self, near: &Target, far: &Target) -> (Mph, Mph)
        ensures near { result.0 ≡ (lowered (P.value self.entry.gradient) near.now self.entry).speed }
        ensures far { result.1 ≡ (lowered (P.value self.entry.gradient) far.now self.entry).speed }
    {
        let mut to_far = self;
        if near.place < to_far.summed.to {
            to_far.fits(near);
        }
        let mut to_near = to_far.copy();
        to_near.lower(near);
        to_far.lower(far);
        (to_near.speed(), to_far.speed())
    }

    // The same where its speed is above the target's. It is a function of its own, so that what costs nothing is done
    // where it is asked.
    #[inline(never)]
    fn seek(&mut self, target: &Target)
        requires { target.now.speed < self.old.speed }
        ensures { self.new ≡ lowered (P.value self.old.gradient) target.now self.old }
    {
        let (front, speed) = (self.front, self.speed);
        let (speed, sum) = permitted_before(
            front,
            speed,
            target,
            self.gradient,
            self.brakes,
            &self.summed,
        );
        self.speed = speed;
        self.keep(sum);
    }

    /// Whether the speed so far fits a target, as is known without a sum: it is no greater than the target's, or the
    /// train can stop before it.
    pub fn surely_fits(&self, target: &Target) -> bool
        ensures fits { IsTrue result → IsTrue (fits self.now.front (P.value self.now.gradient) self.now.brakes target.now self.now.speed) }
        ensures braking { result ≡ false → target.now.speed < self.now.speed }
    {
        if self.speed <= target.speed {
            return true;
        }
        match self.stop {
            Some(stop) => stop <= target.place,
            None => false,
        }
    }

    // Keeps what was summed last, and where the train can stop by that.
    fn keep(&mut self, sum: Summed)
        requires { IsSummed (P.value self.old.gradient) self.old.brakes.deceleration sum }
        ensures { self.new ≡ self.old }
    {
        self.summed = sum;
        if stops_within(self.front, self.speed, self.brakes, &sum) {
            self.stop = Some(sum.to);
        }
    }
}

/// The greatest speed up to a limit that fits all targets, in metres per hour; 0 where none
/// does. `front` is the maximum safe front, in centimetres. The targets may come in any order. Takes no memory. A speed
/// below one that fits also fits, so it is looked for target by target, each time up to the one found so far.
pub fn permitted<P: Profile<Permille>>(
    front: Cm,
    limit: Mph,
    targets: &[Target],
    gradient: &P,
    brakes: &Brakes,
) -> Mph
    ensures { result ≡ greatest (fits_all front (P.value gradient.now) brakes.now targets.now) limit }
{
    let mut approach = Approach::new(front, limit, gradient, brakes);
    for target in targets {
        approach.lower(target);
    }
    approach.speed()
}
