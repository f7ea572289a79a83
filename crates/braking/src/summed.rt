//! What the brakes take off along a stretch, summed from one change of the gradient to the next.
ghost use Rattle.std.specs.Prelude.{◌≡◌, ℕ, ◌^◌, ◌≤◌, Option, ℤ, ◌-ℤ◌, ◌≤ℤ◌, ◌⊎◌};
ghost use Rattle.units.specs.Stretches.{natural};
ghost use Rattle.braking.specs.Braking.{IsSummed};
ghost use Rattle.braking.specs.Sums.{IsEvenBefore, StartsEvenly};

use crate::slowing::{end_of_stretch, taken_off_evenly};
use brakes::{Deceleration, slowing};
use track_store::Profile;
use units::{Cm, Permille};

/// What a stretch takes off the square of the speed, reckoned once for many speeds and targets (this project's
/// profile).
#[derive(Clone, Copy)]
pub struct Summed {
    /// Where it begins, in centimetres.
    pub from: Cm,
    /// Where it ends, that centimetre not included, in centimetres.
    pub to: Cm,
    /// What it takes off, in (m/h)^2.
    pub taken_off: u64,
    /// A hint for `Profile::piece`: near which piece the gradient is where it ends.
    pub near: usize,
}

impl Summed {
    /// No stretch, at a place in centimetres: it takes off nothing.
    pub fn none(place: Cm) -> Summed
        ensures from { result.from ≡ place }
        ensures to { result.to ≡ place }
        ensures taken_off { result.taken_off ≡ 0 }
        ensures summed { (gradient : ℤ → Option ℤ) → (deceleration : ℕ) → IsSummed gradient deceleration result }
    {
        Summed {
            from: place,
            to: place,
            taken_off: 0,
            near: 0,
        }
    }

    /// The same, gone on with up to a place, in centimetres, or only until it takes off enough, in (m/h)^2. It is gone
    /// through from one change of the gradient to the next. The caller owes a place at or beyond its end.
    pub fn gone_on<P: Profile<Permille>>(
        self,
        gradient: &P,
        deceleration: Deceleration,
        to: Cm,
        enough: u64,
    ) -> Summed
        requires ordered { self.to ≤ℤ to }
        requires near { natural (to -ℤ self.from) ≤ 2 ^ 43 }
        requires summed { IsSummed (P.value gradient.now) deceleration self }
        ensures from { result.from ≡ self.from }
        ensures within { result.to ≤ℤ to }
        ensures reached { (result.to ≡ to) ⊎ (enough ≤ result.taken_off) }
        ensures summed { IsSummed (P.value gradient.now) deceleration result }
    {
        let mut place = self.to;
        let mut taken_off = self.taken_off;
        let mut near = self.near;
        while place < to && taken_off < enough {
            let here = gradient.piece(place, near);
            let end = end_of_stretch(here.next, to);
            taken_off += taken_off_evenly(slowing(deceleration, here.value), place, end);
            place = end;
            near = here.near;
        }
        Summed {
            from: self.from,
            to: place,
            taken_off,
            near,
        }
    }

    /// The same, begun before: from an earlier place on, in centimetres. The caller owes a place at or before its
    /// beginning.
    pub fn initial<P: Profile<Permille>>(
        self,
        gradient: &P,
        deceleration: Deceleration,
        from: Cm,
    ) -> Summed
        requires ordered { from ≤ℤ self.from }
        requires near { natural (self.to -ℤ from) ≤ 2 ^ 43 }
        requires summed { IsSummed (P.value gradient.now) deceleration self }
        ensures from { result.from ≡ from }
        ensures to { result.to ≡ self.to }
        ensures summed { IsSummed (P.value gradient.now) deceleration result }
    {
        if from == self.from {
            return self;
        }
        let before = Summed::none(from).gone_on(gradient, deceleration, self.from, u64::MAX);
        Summed {
            from,
            to: self.to,
            taken_off: before.taken_off + self.taken_off,
            near: self.near,
        }
    }

    /// The same, begun before, at a place in centimetres from which on each centimetre slows alike, in cm/s^2. The
    /// caller owes a place at or before its beginning, and little enough to add up.
    pub fn starts_evenly(self, slowing: u16, from: Cm) -> Summed
        requires { IsEvenBefore slowing from self }
        ensures from { result.from ≡ from }
        ensures initial { StartsEvenly slowing self result }
    {
        Summed {
            from,
            to: self.to,
            taken_off: taken_off_evenly(slowing, from, self.from) + self.taken_off,
            near: self.near,
        }
    }
}
