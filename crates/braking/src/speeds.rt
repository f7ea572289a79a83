//! Whether the brakes bring a speed down to that of a target before its place.
ghost use Rattle.std.specs.Prelude.{◌≡◌, ℕ, ◌*◌, ◌-◌, ◌^◌, ◌<◌, ◌≤◌, ℤ, pos, ◌+ℤ◌, ◌-ℤ◌, ◌≤ℤ◌, ◌<ℤ◌, ◌↔◌, IsTrue, IsSome, IfSome, MatchOption, Option, None, Some};
ghost use Rattle.units.specs.Stretches.{natural};
ghost use Rattle.track_store.specs.Profiles.{Lasts};
ghost use Rattle.brakes.specs.Brakes.{reaction_way};
ghost use Rattle.braking.specs.Braking.{fits, IsSummed};
ghost use Rattle.braking.specs.Sums.{IsSummedBefore, IsStopping};

use crate::Target;
use crate::slowing::end_of_stretch;
use crate::summed::Summed;
use brakes::{Brakes, Reaction, reaction_way, slowing};
use track_store::Profile;
use units::{Cm, Mph, Permille};

/// Whether a speed, in metres per hour, fits a target, for a train whose maximum safe front is at a place, in
/// centimetres: it is no greater than the target's, or the brakes act before the target and take off enough (this
/// project's profile). A speed below one that fits also fits.
pub fn fits<P: Profile<Permille>>(
    front: Cm,
    speed: Mph,
    target: &Target,
    gradient: &P,
    brakes: &Brakes,
) -> bool
    ensures value { result ≡ fits front (P.value gradient.now) brakes.now target.now speed }
    ensures slower { IsTrue result → (v : ℕ) → v ≤ speed
        → IsTrue (fits front (P.value gradient.now) brakes.now target.now v) }
{
    if speed <= target.speed {
        return true;
    }
    let none = Summed::none(front);
    let (fits, _) = fits_summed(front, speed, target, gradient, brakes, &none);
    fits
}

/// Whether a speed above a target's fits it, and what was summed on the way. Places are centimetres, speeds metres per
/// hour. The caller owes what was summed of the same train and gradient.
pub fn fits_summed<P: Profile<Permille>>(
    front: Cm,
    speed: Mph,
    target: &Target,
    gradient: &P,
    brakes: &Brakes,
    summed: &Summed,
) -> (bool, Summed)
    requires faster { target.now.speed < speed }
    requires summed { IsSummed (P.value gradient.now) brakes.now.deceleration summed.now }
    ensures fits { result.0 ≡ fits front (P.value gradient.now) brakes.now target.now speed }
    ensures summed { IsSummed (P.value gradient.now) brakes.now.deceleration result.1 }
{
    match summed_before(front, speed, target, gradient, brakes, summed) {
        None => (false, *summed),
        Some(sum) => (lacking(speed, target.speed) <= sum.taken_off, sum),
    }
}

/// What the brakes take off before a target from where they act at a speed above its own, as far as is needed to see
/// whether the speed fits; None where they don't act before it. What is summed already isn't gone through again, where
/// it lies within. The caller owes what was summed of the same train and gradient.
pub fn summed_before<P: Profile<Permille>>(
    front: Cm,
    speed: Mph,
    target: &Target,
    gradient: &P,
    brakes: &Brakes,
    summed: &Summed,
) -> Option<Summed>
    requires faster { target.now.speed < speed }
    requires summed { IsSummed (P.value gradient.now) brakes.now.deceleration summed.now }
    ensures late { IsSome result ↔ (front +ℤ pos (reaction_way brakes.now.reaction speed)) <ℤ target.now.place }
    ensures sum { IfSome result (IsSummedBefore front (P.value gradient.now) brakes.now target.now speed) }
    ensures near { natural (target.now.place -ℤ front) ≤ 2 ^ 43 }
{
    let place = target.place;
    let start = brakes_act(front, reaction_way(brakes.reaction, speed), place)?;
    let from_start = if start <= summed.from && summed.to <= place {
        summed.initial(gradient, brakes.deceleration, start)
    } else {
        Summed::none(start)
    };
    let enough = lacking(speed, target.speed);
    Some(from_start.gone_on(gradient, brakes.deceleration, place, enough))
}

/// Whether a train comes to a stop within what is summed, from a speed in metres per hour, with its maximum safe front
/// at a place in centimetres.
pub fn stops_within(front: Cm, speed: Mph, brakes: &Brakes, sum: &Summed) -> bool
    ensures { IsTrue result → IsStopping front brakes.now.reaction speed sum.now }
{
    let square = u64::from(speed.get()) * u64::from(speed.get());
    if sum.taken_off < square {
        return false;
    }
    front.get() + i64::from(reaction_way(brakes.reaction, speed)) <= sum.from.get()
}

/// What is taken off on the gradient on which the brakes act at a speed, up to where the train comes to a stop; None
/// where it comes to none there. Places are centimetres, speeds metres per hour.
pub fn stopping_at_once<P: Profile<Permille>>(
    front: Cm,
    speed: Mph,
    gradient: &P,
    brakes: &Brakes,
) -> Option<Summed>
    ensures { IfSome result (IsSummed (P.value gradient.now) brakes.now.deceleration) }
{
    let way = reaction_way(brakes.reaction, speed);
    let start = Cm::new(front.get() + i64::from(way))?;
    let here = gradient.piece(start, 0);
    let slowing = slowing(brakes.deceleration, here.value);
    let stop = stop_on(here.next, start, speed, slowing)?;
    Some(Summed::none(stop).starts_evenly(slowing, start))
}

// Where a train comes to a stop whose brakes act at a place, where each centimetre slows alike up to another one; None
// where it comes to none before that.
fn stop_on(next: Option<Cm>, start: Cm, speed: Mph, slowing: u16) -> Option<Cm>
    requires { slowing ≤ 549 }
    ensures ahead { IfSome result (λ stop. start <ℤ stop) }
    ensures near { IfSome result (λ stop. natural (stop -ℤ start) ≤ 2 ^ 43) }
    ensures lasts { (value : ℤ → Option ℤ) → Lasts value start next → IfSome result (λ stop. Lasts value start (Some stop)) }
{
    let rate = 2592 * u64::from(slowing);
    if rate == 0 {
        return None;
    }
    let square = u64::from(speed.get()) * u64::from(speed.get());
    let Ok(way) = u32::try_from(square / rate) else {
        return None;
    };
    let stop = Cm::new(start.get() + i64::from(way) + 1)?;
    if end_of_stretch(next, stop) == stop {
        Some(stop)
    } else {
        None
    }
}

/// What the brakes must take off the square of the speed, from one speed down to another, in (m/h)^2. The caller owes
/// speeds that fall.
pub fn lacking(from: Mph, to: Mph) -> u64
    requires { to ≤ from }
    ensures { result ≡ from * from - to * to }
{
    let (from, to) = (u64::from(from.get()), u64::from(to.get()));
    from * from - to * to
}

/// Where the brakes act after a way from the front, all in centimetres; None where this isn't before a place. The
/// caller owes a way of `reaction_way`.
pub fn brakes_act(front: Cm, way: u32, place: Cm) -> Option<Cm>
    requires { way ≤ 166_667 }
    ensures found { IsSome result ↔ (front +ℤ pos way) <ℤ place }
    ensures value { IfSome result (λ start. start ≡ front +ℤ pos way) }
    ensures near { IfSome result (λ start. natural (place -ℤ start) ≤ 2 ^ 43) }
    ensures reach { natural (place -ℤ front) ≤ 2 ^ 43 }
{
    let start = front.get() + i64::from(way);
    if start < place.get() {
        Cm::new(start)
    } else {
        None
    }
}

/// The greatest speed up to a limit at which the brakes act before a place, in metres per hour; None where they act
/// before it at none. Places are centimetres.
pub fn fastest_before(front: Cm, limit: Mph, reaction: Reaction, place: Cm) -> Option<Mph>
    ensures late { result ≡ None → (v : ℕ) → place ≤ℤ (front +ℤ pos (reaction_way reaction v)) }
    ensures acts { IfSome result (λ fastest. (front +ℤ pos (reaction_way reaction fastest)) <ℤ place) }
    ensures greatest { IfSome result (λ fastest. (v : ℕ) → v ≤ limit → (front +ℤ pos (reaction_way reaction v)) <ℤ place → v ≤ fastest) }
{
    if place <= front {
        return None;
    }
    let way = (place.get() - front.get() - 1) as u64;
    Some(fastest_within(limit, reaction, way))
}

// The greatest speed up to a limit at which the brakes act within a way, in centimetres. The caller owes a way between
// two places.
fn fastest_within(limit: Mph, reaction: Reaction, way: u64) -> Mph
    requires { way ≤ 2 ^ 43 }
    ensures acts { reaction_way reaction result ≤ way }
    ensures greatest { (v : ℕ) → v ≤ limit → reaction_way reaction v ≤ way → v ≤ result }
{
    let ms = u64::from(reaction.get());
    if 36_000 * way < u64::from(limit.get()) * ms {
        Mph::new_unchecked((36_000 * way / ms) as u32)
    } else {
        limit
    }
}
