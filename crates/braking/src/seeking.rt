//! The search for the greatest speed that fits a target.
ghost use Rattle.std.specs.Prelude.{◌≡◌, ℕ, ◌+◌, ◌-◌, ◌*◌, ◌^◌, ◌<◌, ◌≤◌, ◌⊎◌, ◌↔◌, pos, ◌+ℤ◌, ◌-ℤ◌, ◌≤ℤ◌, ◌<ℤ◌, false, IsTrue, IsSome, IfSome, MatchOption};
ghost use Rattle.std.specs.Int.{int_max};
ghost use Rattle.units.specs.Stretches.{natural};
ghost use Rattle.brakes.specs.Brakes.{reaction_way};
ghost use Rattle.braking.specs.Braking.{fits, greatest, IsSummed};
ghost use Rattle.braking.specs.Sums.{IsSummedWhole, IsRoot, IsEvenBefore, StartsEvenly, IsEnough};

use crate::Target;
use crate::speeds::{brakes_act, fastest_before, lacking, summed_before};
use crate::stretch::Stretch;
use crate::summed::Summed;
use brakes::{Brakes, reaction_way};
use track_store::Profile;
use units::{Cm, Mph, Permille};

/// The greatest speed up to a limit that fits a target whose speed is below that limit, in metres per hour, and what
/// was summed on the way. The caller owes what was summed of the same train and gradient.
pub fn permitted_before<P: Profile<Permille>>(
    front: Cm,
    limit: Mph,
    target: &Target,
    gradient: &P,
    brakes: &Brakes,
    summed: &Summed,
) -> (Mph, Summed)
    requires faster { target.now.speed < limit }
    requires summed { IsSummed (P.value gradient.now) brakes.now.deceleration summed.now }
    ensures speed { result.0 ≡ greatest (fits front (P.value gradient.now) brakes.now target.now) limit }
    ensures summed { IsSummed (P.value gradient.now) brakes.now.deceleration result.1 }
{
    let Some(sum) = summed_before(front, limit, target, gradient, brakes, summed) else {
        let none = Summed::none(target.place);
        return sought(front, limit, target, gradient, brakes, &none);
    };
    if lacking(limit, target.speed) <= sum.taken_off {
        return (limit, sum);
    }
    sought(front, limit, target, gradient, brakes, &sum)
}

// The greatest speed below one that doesn't fit a target, where it is known what the stretch from where the brakes act
// at that one takes off, and what was summed on the way. The speed from which so much is taken off fits, and a greater
// one fits only where its brakes act before that. So it goes back from there, one gradient after another, up to the one
// on which the brakes act at the greatest. The caller owes a place that is near the front.
fn sought<P: Profile<Permille>>(
    front: Cm,
    limit: Mph,
    target: &Target,
    gradient: &P,
    brakes: &Brakes,
    sum: &Summed,
) -> (Mph, Summed)
    requires faster { target.now.speed < limit }
    requires fails { fits front (P.value gradient.now) brakes.now target.now limit ≡ false }
    requires whole { IsSummedWhole front (P.value gradient.now) brakes.now target.now limit sum.now }
    requires near { natural (target.now.place -ℤ front) ≤ 2 ^ 43 }
    ensures speed { result.0 ≡ greatest (fits front (P.value gradient.now) brakes.now target.now) limit }
    ensures summed { IsSummed (P.value gradient.now) brakes.now.deceleration result.1 }
{
    let least = root(target.speed, sum.taken_off, limit, limit);
    let Some(start) = brakes_act(front, reaction_way(brakes.reaction, least), sum.from) else {
        return (least, *sum);
    };
    let mut last = Stretch::before(sum, gradient, brakes.deceleration, start, 0);
    while is_too_fast(front, limit, target, brakes, &last.initial) {
        last = Stretch::before(
            &last.initial,
            gradient,
            brakes.deceleration,
            start,
            last.near,
        );
    }
    let low = root(target.speed, last.sum.taken_off, limit, least);
    let high = root(target.speed, last.initial.taken_off, limit, low);
    halved(front, low, above(high, limit), target, brakes, &last)
}

// Whether too little is taken off for the greatest speed up to a limit at which the brakes act before what is summed.
fn is_too_fast(front: Cm, limit: Mph, target: &Target, brakes: &Brakes, sum: &Summed) -> bool
    requires { sum.now.taken_off < 2 ^ 64 - 2 ^ 62 }
    ensures sooner { IsTrue result → (v : ℕ) → v ≤ limit → v * v ≤ target.now.speed * target.now.speed + sum.now.taken_off
        → (front +ℤ pos (reaction_way brakes.now.reaction v)) <ℤ sum.now.from }
    ensures enough { result ≡ false → (v : ℕ) → v ≤ limit → (front +ℤ pos (reaction_way brakes.now.reaction v)) <ℤ sum.now.from
        → v * v ≤ target.now.speed * target.now.speed + sum.now.taken_off }
{
    match fastest_before(front, limit, brakes.reaction, sum.from) {
        None => false,
        Some(fastest) => {
            let (from, to) = (u64::from(fastest.get()), u64::from(target.speed.get()));
            to * to + sum.taken_off < from * from
        }
    }
}

// The greatest speed from one on, below another one, at which the brakes act before what is summed after a stretch and
// take off enough; and what is summed from where they act at that, or from where the stretch begins. Each speed that is
// tried costs a product.
fn halved(
    front: Cm,
    low: Mph,
    high: Mph,
    target: &Target,
    brakes: &Brakes,
    stretch: &Stretch,
) -> (Mph, Summed)
    requires faster { target.now.speed ≤ low }
    requires ordered { low ≤ high }
    requires even { IsEvenBefore stretch.now.slowing stretch.now.initial.from stretch.now.sum }
    ensures least { low ≤ result.0 }
    ensures most { result.0 ≤ high }
    ensures enough { (result.0 ≡ low) ⊎ IsEnough front brakes.now target.now stretch.now result.0 }
    ensures next { result.0 + 1 < high → ¬ (IsEnough front brakes.now target.now stretch.now (result.0 + 1)) }
    ensures from { stretch.now.initial.from ≤ℤ result.1.from }
    ensures initial { StartsEvenly stretch.now.slowing stretch.now.sum result.1 }
{
    let mut least = low;
    let mut end = high;
    while let Some(middle) = halfway(least, end) {
        if is_enough(front, middle, target, brakes, stretch) {
            least = middle;
        } else {
            end = middle;
        }
    }
    match starting_at(front, least, brakes, stretch) {
        Some(initial) => (least, initial),
        None => (least, stretch.sum),
    }
}

// Whether the brakes act at a speed before what is summed after a stretch, and from there, or from where the stretch
// begins, take off enough for a target. The caller owes a speed no less than the target's.
fn is_enough(front: Cm, speed: Mph, target: &Target, brakes: &Brakes, stretch: &Stretch) -> bool
    requires faster { target.now.speed ≤ speed }
    requires even { IsEvenBefore stretch.now.slowing stretch.now.initial.from stretch.now.sum }
    ensures { IsTrue result ↔ IsEnough front brakes.now target.now stretch.now speed }
{
    match starting_at(front, speed, brakes, stretch) {
        None => false,
        Some(initial) => lacking(speed, target.speed) <= initial.taken_off,
    }
}

// What is summed after a stretch, begun where the brakes act at a speed, or where the stretch begins if they act before
// that; None where they don't act before what is summed.
fn starting_at(front: Cm, speed: Mph, brakes: &Brakes, stretch: &Stretch) -> Option<Summed>
    requires { IsEvenBefore stretch.now.slowing stretch.now.initial.from stretch.now.sum }
    ensures found { IsSome result ↔ (front +ℤ pos (reaction_way brakes.now.reaction speed)) <ℤ stretch.now.sum.from }
    ensures from { IfSome result
        (λ initial. initial.from ≡ int_max (front +ℤ pos (reaction_way brakes.now.reaction speed)) stretch.now.initial.from) }
    ensures initial { IfSome result (StartsEvenly stretch.now.slowing stretch.now.sum) }
{
    let way = reaction_way(brakes.reaction, speed);
    match brakes_act(front, way, stretch.sum.from) {
        None => None,
        Some(start) => {
            let from = start.max(stretch.initial.from);
            Some(stretch.sum.starts_evenly(stretch.slowing, from))
        }
    }
}

// A speed between two; None where there is none.
fn halfway(low: Mph, high: Mph) -> Option<Mph>
    requires { low ≤ high }
    ensures { MatchOption result (high ≤ low + 1) (λ middle. (low < middle) × (middle < high)) }
{
    let part = (high.get() - low.get()) / 2;
    if part == 0 {
        None
    } else {
        Some(Mph::new_unchecked(low.get() + part))
    }
}

// The speed after another one, but none above a limit.
fn above(speed: Mph, limit: Mph) -> Mph
    requires { speed ≤ limit }
    ensures within { result ≤ limit }
    ensures next { speed < limit → result ≡ speed + 1 }
    ensures last { limit ≤ speed → result ≡ limit }
{
    if speed < limit {
        Mph::new_unchecked(speed.get() + 1)
    } else {
        limit
    }
}

// The greatest speed up to a limit from which a train comes down to another one where so much is taken off: a whole
// square root, by Newton's way from above. It begins with a step from a speed that may be near; that bears on nothing
// but the cost.
fn root(speed: Mph, taken_off: u64, limit: Mph, near: Mph) -> Mph
    requires { taken_off < 2 ^ 64 - 2 ^ 62 }
    ensures { IsRoot speed taken_off limit result }
{
    let square = u64::from(speed.get()) * u64::from(speed.get()) + taken_off;
    let near = u64::from(near.get()).max(1);
    let mut root = u64::from(limit.get()).min((near + square / near) / 2);
    while square < root * root {
        root = (root + square / root) / 2;
    }
    Mph::new_unchecked(root as u32)
}
