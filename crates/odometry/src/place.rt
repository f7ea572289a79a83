//! Movements and fixes give the estimated position, its uncertainty, and the safe fronts and rear.
ghost use Rattle.std.specs.Prelude.{◌≡◌, ◌↔◌, ◌+◌, ◌*◌, ◌^◌, ◌≤◌, ◌-ℤ◌, List, [], pos, IsTrue, IsOk, IfOk, OnErr};
ghost use Rattle.std.specs.Int.RustNames.{unsigned_abs};
ghost use Rattle.units.specs.Limits.{farthest, HasReach};
ghost use Rattle.odometry.specs.Place.{PlaceEntry, known, estimate, uncertainty, min_front, max_front, min_rear, stretch, stretch_about, place_at, is_near, stays_in_range, after_movement, is_made, after_fix};

use crate::{EarlierPlace, Fix, Overrun, Sums};
use std::marker::Model;
use units::{Cm, FARTHEST, GroupPlace, Length, Movement, Stretch};

/// Where the train's front is, by the odometer and the balise groups of this life (SUBSET-026, 3.6.4; the formula: this
/// project's profile). Places count from where the life began, forward positive.
#[derive(Clone, Copy)]
pub struct Place {
    // The last fix, and the sums now.
    fix: Fix,
    sums: Sums,
}

impl Model for Place {
    ghost use Rattle.odometry.specs.Place.{KnownPlace, IsWithinLimits};

    ghost Value = { KnownPlace };

    ghost view = { λ p. record { fix = p.fix; sums = p.sums } };

    ghost invariant = { λ p. IsWithinLimits (record { fix = p.fix; sums = p.sums }) };

    ghost inverse = { λ k. record { fix = k.fix; sums = k.sums } };
}

// Whether a place isn't too far.
fn is_near(place: i64) -> bool
    ensures { result ≡ is_near place }
{
    place.unsigned_abs() <= FARTHEST
}

impl Place {
    /// The place at the start of a life: estimate, movements and path are 0, and the uncertainty is 500 cm. Takes no
    /// memory.
    pub fn new() -> Self
        ensures { result ≡ known [] }
    {
        Place {
            fix: Fix::FIRST,
            sums: Sums::ZERO,
        }
    }

    /// Adds a movement, forward or backward, in centimetres. Overrun exactly where the path of the life or the new
    /// estimate would lie beyond 2^40 cm; then nothing changes. The caller owes each movement of the odometer once, in
    /// order.
    pub fn moved(&mut self, movement: Movement) -> Result<(), Overrun>
        ensures range_kept { IsOk result ↔ IsTrue (stays_in_range self.old movement) }
        ensures stands { (entries : List PlaceEntry) → self.old ≡ known entries
            → self.new ≡ known (after_movement entries movement) }
        ensures overrun { OnErr result (self.new ≡ self.old) }
    {
        let Some(sums) = self.sums.moved_on(movement) else {
            return Err(Overrun);
        };
        if !is_near(self.fix.estimate_at(&sums)) {
            return Err(Overrun);
        }
        self.sums = sums;
        Ok(())
    }

    /// Takes the place of a balise group in place of the last fix, and answers it, in centimetres. Overrun exactly
    /// where it, or the estimate that it gives now, lies beyond 2^40 cm; then nothing changes. The sums of the fix are
    /// those of this life.
    pub fn fix(&mut self, fix: Fix) -> Result<GroupPlace, Overrun>
        ensures made { IsOk result ↔ IsTrue (is_made self.old.sums fix) }
        ensures place { IfOk result (λ place. place ≡ fix.at) }
        ensures stands { (entries : List PlaceEntry) → self.old ≡ known entries
            → self.new ≡ known (after_fix entries fix) }
        ensures overrun { OnErr result (self.new ≡ self.old) }
    {
        let at = fix.at.get();
        if !is_near(at) || !is_near(fix.estimate_at(&self.sums)) {
            return Err(Overrun);
        }
        self.fix = fix;
        Ok(GroupPlace::new_unchecked(at))
    }

    /// The movements and the path of the life up to now, in centimetres.
    pub fn sums(&self) -> Sums
        ensures { result ≡ self.now.sums }
    {
        self.sums
    }

    /// Where the front was at a moment of this life, reckoned from the last fix, in centimetres. The caller owes the
    /// sums of that moment.
    pub fn place_at(&self, moment: &Sums) -> EarlierPlace
        ensures { result ≡ place_at self.now.fix moment.now }
    {
        EarlierPlace {
            estimate: GroupPlace::new_unchecked(self.fix.estimate_at(moment)),
            uncertainty: Cm::new_unchecked(self.fix.uncertainty_at(moment) as i64),
        }
    }

    /// The estimated position: where the front is thought to be, in centimetres; at most 2^40 from 0.
    pub fn estimate(&self) -> Cm
        ensures value { result ≡ estimate self.now }
        ensures near { unsigned_abs result ≤ farthest }
    {
        Cm::new_unchecked(self.fix.estimate_at(&self.sums))
    }

    /// How far the estimate lies beyond the place of the last fix, in centimetres.
    pub fn since_fix(&self) -> Cm
        ensures value { result ≡ estimate self.now -ℤ self.now.fix.at }
        ensures near { unsigned_abs result ≤ 2 * farthest }
    {
        Cm::new_unchecked(self.fix.estimate_at(&self.sums) - self.fix.at.get())
    }

    /// How far the estimate may be wrong, to either side, in centimetres: the accuracy of the fix, 500, a twentieth of
    /// the path since, and 1,200 for a missed balise 1.
    pub fn uncertainty(&self) -> Cm
        ensures value { result ≡ pos (uncertainty self.now) }
        ensures near { unsigned_abs result ≤ farthest + 2 ^ 37 }
    {
        Cm::new_unchecked(self.fix.uncertainty_at(&self.sums) as i64)
    }

    /// The minimum safe front (3.6.4), in centimetres: the estimate less the uncertainty.
    pub fn min_front(&self) -> Cm
        ensures { result ≡ min_front self.now }
    {
        self.stretch(Length::ZERO).min_front()
    }

    /// The maximum safe front (3.6.4), in centimetres: the estimate plus the uncertainty.
    pub fn max_front(&self) -> Cm
        ensures { result ≡ max_front self.now }
    {
        self.stretch(Length::ZERO).max_front()
    }

    /// The minimum safe rear of a train of this length (3.6.4), in centimetres: the minimum safe front less the length.
    /// For length 0 it is the minimum safe front.
    pub fn min_rear(&self, length: Length) -> Cm
        ensures { result ≡ min_rear self.now length }
    {
        self.stretch(length).rear()
    }

    /// The track that a train of this length may cover, in centimetres: minimum safe rear, minimum and maximum safe
    /// front. Each distance of a packet, counted from any of these, leads to a place within the limits of `Cm`.
    pub fn stretch(&self, length: Length) -> Stretch
        ensures value { result ≡ stretch self.now length }
        ensures near { HasReach result.rear }
    {
        stretch_about(self.estimate(), self.fix.uncertainty_at(&self.sums), length)
    }
}

// The track that a train of this length may cover, where its front may be so far from an estimate.
fn stretch_about(estimate: Cm, uncertainty: u64, length: Length) -> Stretch
    requires estimate { unsigned_abs estimate ≤ farthest }
    requires uncertainty { uncertainty ≤ farthest + 2 ^ 37 }
    ensures value { result ≡ stretch_about estimate uncertainty length }
    ensures near { HasReach result.rear }
{
    let min_front = estimate.get() - uncertainty as i64;
    let max_front = estimate.get() + uncertainty as i64;
    let rear = min_front - length.get() as i64;
    Stretch::new_unchecked(
        Cm::new_unchecked(rear),
        Cm::new_unchecked(min_front),
        Cm::new_unchecked(max_front),
    )
}
