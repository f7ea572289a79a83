//! Stretches with one gradient before what is summed, one after another.
ghost use Rattle.std.specs.Prelude.{◌≡◌, ◌≤◌, ◌^◌, ◌-ℤ◌, ◌≤ℤ◌, ◌<ℤ◌};
ghost use Rattle.units.specs.Stretches.{natural};
ghost use Rattle.braking.specs.Braking.{IsSummed};
ghost use Rattle.braking.specs.Sums.{IsStretch};

use crate::summed::Summed;
use brakes::{Deceleration, slowing};
use track_store::Profile;
use units::{Cm, Permille};

/// A stretch with one gradient, and what is summed after it.
#[derive(Clone, Copy)]
pub struct Stretch {
    /// The deceleration on it, in cm/s^2.
    pub slowing: u16,
    /// What is summed after it.
    pub sum: Summed,
    /// The same, begun where the stretch begins.
    pub initial: Summed,
    /// A hint for `Profile::piece_before`: near which piece the gradient is before it.
    pub near: usize,
}

impl Stretch {
    /// The one that ends where a sum begins, or what of it lies from a least place on, in centimetres. The caller owes a
    /// least place before that, and what was summed of the same gradient.
    pub fn before<P: Profile<Permille>>(
        sum: &Summed,
        gradient: &P,
        deceleration: Deceleration,
        least: Cm,
        near: usize,
    ) -> Stretch
        requires summed { IsSummed (P.value gradient.now) deceleration sum.now }
        requires ordered { least <ℤ sum.now.from }
        requires near { natural (sum.now.to -ℤ least) ≤ 2 ^ 43 }
        ensures earlier { result.sum ≡ sum.now }
        ensures stretch { IsStretch (P.value gradient.now) deceleration result }
        ensures within { least ≤ℤ result.initial.from }
    {
        let here = gradient.piece_before(sum.from, least, near);
        let slowing = slowing(deceleration, here.value);
        Stretch {
            slowing,
            sum: *sum,
            initial: sum.starts_evenly(slowing, here.from),
            near: here.near,
        }
    }
}
