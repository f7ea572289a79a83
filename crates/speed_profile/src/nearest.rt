//! An approach to all targets ahead, in whatever order they come, in the order of their places: so the gradients are
//! summed once.
ghost use Rattle.std.specs.Prelude.{◌≡◌, ℕ, ◌+◌, ◌<◌, ◌≤◌, ◌≤ℤ◌, List, ◌∷◌, [], ◌++◌, None, false, length, take, drop, IsTrue, IfSome};
ghost use Rattle.track_store.specs.Profiles.{listed};
ghost use Rattle.braking.specs.declared.target.Target.{Target as RequestedTarget};
ghost use Rattle.braking.specs.Approaches.{lowered_by};
ghost use Rattle.speed_profile.specs.Targets.{AskNothing, AskTheSame, AskTheSameOf, held};

use crate::CategorySpeeds;
use crate::speeds_ahead::{lower_by_piece, lower_by_speeds, lower_up_to};
use crate::targets::{OtherTargets, SpeedTargets};
use braking::{Approach, Target};
use track_store::Profile;
use units::Permille;

/// One step of a speed, in metres per hour.
const STEP: u32 = 5_000;

/// How many steps there are up to the greatest speed.
const STEPS: usize = 120;

/// The speed of most trains at most, in metres per hour, and how many steps there are up to it.
const USUAL_SPEED: u32 = 200_000;

const USUAL_STEPS: usize = 40;

/// Lowers the speed of an approach for all targets ahead: the static speeds, which come the nearest first, and the
/// others, in whatever order these come. They are gone to in the order of their places.
pub fn lower_by_all<'a, S: Profile<CategorySpeeds>, G: Profile<Permille>>(
    approach: &mut Approach<'a, G>,
    speeds: &mut SpeedTargets<'a, S>,
    others: &mut OtherTargets<'a>,
)
    ensures { approach.new ≡ lowered_by (G.value approach.old.gradient) (speeds.old.targets ++ others.old.targets) approach.old }
{
    lower_by_piece(approach, speeds);
    look_for_stop(approach, speeds, others);
    lower_by_others(approach, speeds, others);
    lower_by_speeds(approach, speeds);
}

// Looks where the train comes to a stop, where there may be more to brake for than a mode area and a last target.
fn look_for_stop<'a, S: Profile<CategorySpeeds>, G: Profile<Permille>>(
    approach: &mut Approach<'a, G>,
    speeds: &SpeedTargets<'a, S>,
    others: &OtherTargets<'a>,
)
    ensures { approach.new ≡ approach.old }
{
    if speeds.start().is_some() || others.has_restrictions() {
        approach.look_for_stop();
    }
}

// Lowers the speed for all others, and for the static speeds before them.
fn lower_by_others<'a, S: Profile<CategorySpeeds>, G: Profile<Permille>>(
    approach: &mut Approach<'a, G>,
    speeds: &mut SpeedTargets<'a, S>,
    others: &mut OtherTargets<'a>,
)
    ensures { lowered_by (G.value approach.new.gradient) speeds.new.targets approach.new
        ≡ lowered_by (G.value approach.old.gradient) (speeds.old.targets ++ others.old.targets) approach.old }
{
    let Some(first) = next_to_brake_for(approach, others) else {
        return;
    };
    match next_to_brake_for(approach, others) {
        None => lower_up_to(approach, speeds, &first),
        Some(second) => lower_by_more(approach, speeds, others, &first, &second),
    }
}

// Lowers the speed for two targets, for those that are left, and for the static speeds before them.
fn lower_by_more<'a, S: Profile<CategorySpeeds>, G: Profile<Permille>>(
    approach: &mut Approach<'a, G>,
    speeds: &mut SpeedTargets<'a, S>,
    others: &mut OtherTargets<'a>,
    first: &Target,
    second: &Target,
)
    ensures { lowered_by (G.value approach.new.gradient) speeds.new.targets approach.new
        ≡ lowered_by (G.value approach.old.gradient) (speeds.old.targets ++ (first.now ∷ second.now ∷ others.old.targets)) approach.old }
{
    match next_to_brake_for(approach, others) {
        None => lower_by_two(approach, speeds, first, second),
        Some(third) => lower_by_nearest(approach, speeds, others, first, second, &third),
    }
}

// Lowers the speed for two targets, the nearer one first, and for the static speeds before them.
fn lower_by_two<'a, S: Profile<CategorySpeeds>, G: Profile<Permille>>(
    approach: &mut Approach<'a, G>,
    speeds: &mut SpeedTargets<'a, S>,
    one: &Target,
    other: &Target,
)
    ensures { lowered_by (G.value approach.new.gradient) speeds.new.targets approach.new
        ≡ lowered_by (G.value approach.old.gradient) (speeds.old.targets ++ (one.now ∷ other.now ∷ [])) approach.old }
{
    if one.place <= other.place {
        lower_up_to(approach, speeds, one);
        lower_up_to(approach, speeds, other);
    } else {
        lower_up_to(approach, speeds, other);
        lower_up_to(approach, speeds, one);
    }
}

// The next target that the speed so far isn't known to fit.
fn next_to_brake_for<'a, G: Profile<Permille>>(
    approach: &Approach<'a, G>,
    others: &mut OtherTargets<'a>,
) -> Option<Target>
    ensures requested { AskTheSameOf (G.value approach.now.gradient) approach.now others.old.targets (listed result ++ others.new.targets) }
    ensures none { result ≡ None → AskNothing others.new.targets }
{
    others.skip_fitting(approach);
    while let Some(target) = others.next() {
        if !approach.surely_fits(&target) {
            return Some(target);
        }
    }
    None
}

// Lowers the speed for three targets, for those that are left, and for the static speeds before them. A place for each
// step up to the speed so far does, since no faster target asks for anything.
fn lower_by_nearest<'a, S: Profile<CategorySpeeds>, G: Profile<Permille>>(
    approach: &mut Approach<'a, G>,
    speeds: &mut SpeedTargets<'a, S>,
    others: &mut OtherTargets<'a>,
    first: &Target,
    second: &Target,
    third: &Target,
)
    ensures { lowered_by (G.value approach.new.gradient) speeds.new.targets approach.new ≡ lowered_by (G.value approach.old.gradient)
        (speeds.old.targets ++ (first.now ∷ second.now ∷ third.now ∷ others.old.targets)) approach.old }
{
    if approach.speed().get() <= USUAL_SPEED {
        let mut nearest = [None; USUAL_STEPS + 1];
        lower_by_held(approach, speeds, others, first, second, third, &mut nearest);
    } else {
        let mut nearest = [None; STEPS + 1];
        lower_by_held(approach, speeds, others, first, second, third, &mut nearest);
    }
}

// The same, in places that hold none. Of those of one speed only the nearest is gone to, and of those of several only
// the ones that are nearer than each slower one, the fastest first. So they lie farther and farther ahead, and what
// lies between is summed once.
#[inline(never)]
fn lower_by_held<'a, S: Profile<CategorySpeeds>, G: Profile<Permille>>(
    approach: &mut Approach<'a, G>,
    speeds: &mut SpeedTargets<'a, S>,
    others: &mut OtherTargets<'a>,
    first: &Target,
    second: &Target,
    third: &Target,
    nearest: &mut [Option<Target>],
)
    requires places { 1 ≤ length nearest.old }
    requires none { held nearest.old ≡ [] }
    ensures { lowered_by (G.value approach.new.gradient) speeds.new.targets approach.new ≡ lowered_by (G.value approach.old.gradient)
        (speeds.old.targets ++ (first.now ∷ second.now ∷ third.now ∷ others.old.targets)) approach.old }
{
    take(approach, nearest, first);
    take(approach, nearest, second);
    take(approach, nearest, third);
    hold_left(approach, others, nearest);
    let first = gather_deciding(nearest);
    lower_each(approach, speeds, nearest, first);
}

// Holds those that are left.
fn hold_left<'a, G: Profile<Permille>>(
    approach: &mut Approach<'a, G>,
    others: &mut OtherTargets<'a>,
    nearest: &mut [Option<Target>],
)
    requires { 1 ≤ length nearest.old }
    ensures { lowered_by (G.value approach.new.gradient) (held nearest.new) approach.new
        ≡ lowered_by (G.value approach.old.gradient) (held nearest.old ++ others.old.targets) approach.old }
{
    while let Some(target) = others.next() {
        take(approach, nearest, &target);
    }
}

// Holds a target, or lowers the speed for it at once.
fn take<'a, G: Profile<Permille>>(
    approach: &mut Approach<'a, G>,
    nearest: &mut [Option<Target>],
    target: &Target,
)
    requires { 1 ≤ length nearest.old }
    ensures length { length nearest.new ≡ length nearest.old }
    ensures requested { (others : List RequestedTarget) → lowered_by (G.value approach.new.gradient) (held nearest.new ++ others) approach.new
        ≡ lowered_by (G.value approach.old.gradient) (target.now ∷ (held nearest.old ++ others)) approach.old }
{
    if !hold(nearest, target) {
        approach.lower(target);
    }
}

// Holds a target in the place of its step, or in the first one where its speed is above the greatest step, where it
// asks for all that the one there does, or that one for all that it does; else false, and nothing changes.
fn hold(nearest: &mut [Option<Target>], target: &Target) -> bool
    requires { 1 ≤ length nearest.old }
    ensures length { length nearest.new ≡ length nearest.old }
    ensures held { IsTrue result → AskTheSame (held nearest.new) (target.now ∷ held nearest.old) }
    ensures left { result ≡ false → nearest.new ≡ nearest.old }
{
    let slowest = nearest.len() - 1;
    let step = slowest.saturating_sub((target.speed.get() / STEP) as usize);
    match more_asking(&nearest[step], target) {
        Some(kept) => {
            nearest[step] = Some(kept);
            true
        }
        None => false,
    }
}

// The one of two targets that asks for all that the other one does, if one does.
fn more_asking(known: &Option<Target>, target: &Target) -> Option<Target>
    ensures { IfSome result (λ kept. AskTheSame (kept ∷ []) (listed known.now ++ (target.now ∷ []))) }
{
    let Some(known) = known else {
        return Some(*target);
    };
    if is_no_nearer(known, target) {
        return Some(*known);
    }
    if is_no_nearer(target, known) {
        return Some(*target);
    }
    None
}

// Whether a target is no nearer than another one, and asks for no lower speed.
fn is_no_nearer(near: &Target, far: &Target) -> bool
    ensures place { IsTrue result → near.now.place ≤ℤ far.now.place }
    ensures speed { IsTrue result → near.now.speed ≤ far.now.speed }
{
    near.place <= far.place && near.speed <= far.speed
}

// Leaves out each target that is no nearer than a slower one, which asks for all that it asks for. Those that are left
// come to stand at the end, in their order; answers where they begin.
fn gather_deciding(nearest: &mut [Option<Target>]) -> usize
    ensures within { result ≤ length nearest.new }
    ensures requested { AskTheSame (held (drop result nearest.new)) (held nearest.old) }
{
    let mut first = nearest.len();
    for step in (0..nearest.len()).rev() {
        let place = nearest[step];
        if let Some(target) = place {
            first = put_before(nearest, first, &target);
        }
    }
    first
}

// Puts a target before those that begin at a place, unless the first of them asks for all that it asks for; answers
// where they begin then. The caller owes a place before them.
fn put_before(nearest: &mut [Option<Target>], first: usize, target: &Target) -> usize
    requires before { 1 ≤ first }
    requires within { first ≤ length nearest.old }
    ensures length { length nearest.new ≡ length nearest.old }
    ensures most { result ≤ first }
    ensures least { first ≤ result + 1 }
    ensures left { (count : ℕ) → count < first → take count nearest.new ≡ take count nearest.old }
    ensures requested { AskTheSame (held (drop result nearest.new)) (target.now ∷ held (drop first nearest.old)) }
{
    if first < nearest.len() && is_decided(&nearest[first], target) {
        return first;
    }
    let before = first - 1;
    nearest[before] = Some(*target);
    before
}

// Whether one that is held asks for all that a target asks for.
fn is_decided(near: &Option<Target>, target: &Target) -> bool
    ensures { IsTrue result → AskTheSame (listed near.now) (listed near.now ++ (target.now ∷ [])) }
{
    match near {
        Some(near) => is_no_nearer(near, target),
        None => false,
    }
}

// Lowers the speed for each that is held from a place on, and for the static speeds before it.
fn lower_each<'a, S: Profile<CategorySpeeds>, G: Profile<Permille>>(
    approach: &mut Approach<'a, G>,
    speeds: &mut SpeedTargets<'a, S>,
    nearest: &[Option<Target>],
    first: usize,
)
    ensures { lowered_by (G.value approach.new.gradient) speeds.new.targets approach.new
        ≡ lowered_by (G.value approach.old.gradient) (speeds.old.targets ++ held (drop first nearest.now)) approach.old }
{
    for step in first..nearest.len() {
        lower_if_held(approach, speeds, &nearest[step]);
    }
}

// The same for one, if there is one.
fn lower_if_held<'a, S: Profile<CategorySpeeds>, G: Profile<Permille>>(
    approach: &mut Approach<'a, G>,
    speeds: &mut SpeedTargets<'a, S>,
    place: &Option<Target>,
)
    ensures { (others : List RequestedTarget) → lowered_by (G.value approach.new.gradient) (speeds.new.targets ++ others) approach.new
        ≡ lowered_by (G.value approach.old.gradient) (speeds.old.targets ++ (listed place.now ++ others)) approach.old }
{
    if let Some(target) = place {
        lower_up_to(approach, speeds, target);
    }
}
