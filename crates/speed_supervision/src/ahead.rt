//! The first target ahead that a speed doesn't fit.
ghost use Rattle.std.specs.Prelude.{◌≡◌, ◌≤◌, true, false, Some, MatchOption, IfSome};
ghost use Rattle.track_store.specs.Profiles.{listed};
ghost use Rattle.speed_profile.specs.Ahead.{over_ahead, static_targets, restriction_targets, area_targets};
ghost use Rattle.braking.specs.Braking.{fits, fits_all};
ghost use Rattle.speed_supervision.specs.declared.cause.TargetAhead.{TargetAhead as a_target};
ghost use Rattle.speed_supervision.specs.Targets.{journey_by, course_by, along_track, fits_on, fits_all_on, static_kind, IsTarget, IsUnfit};
ghost use Rattle.speed_supervision.specs.Supervised.{order_of};

use crate::{TargetAhead, TargetKind};
use braking::{Approach, Target};
use speed_profile::{
    Ahead, CategorySpeeds, first_in_area, first_target, next_after, static_target,
};
use track_store::Profile;
use units::{Mph, Permille};

/// A target ahead that a speed, in metres per hour, doesn't fit: the nearest static speed, else a restriction or a mode
/// area. None where the speed fits all that lies ahead along the track.
pub fn first_unfit<S: Profile<CategorySpeeds>, G: Profile<Permille>>(
    ahead: &Ahead<'_, S, G>,
    speed: Mph,
) -> Option<TargetAhead>
    ensures found { let journey = journey_by S.value G.value ahead.now in
        MatchOption result (fits_all_on journey (along_track journey) speed ≡ true)
        (IsUnfit journey speed) }
    ensures first { let journey = journey_by S.value G.value ahead.now in
        IfSome result (λ found. (other : a_target) → IsTarget journey other → fits_on journey other.target speed ≡ false
        → order_of found.kind ≤ order_of other.kind) }
{
    let mut approach = Approach::new(ahead.front, speed, ahead.gradient, ahead.brakes);
    if let Some(found) = unfit_static_speed(ahead, &mut approach) {
        return Some(found);
    }
    if let Some(found) = unfit_restriction(ahead, &mut approach) {
        return Some(found);
    }
    unfit_area(ahead, &mut approach)
}

// A target that the speed of an approach doesn't fit, of one or none. What it sums for that is kept in the approach.
fn unfit<G: Profile<Permille>>(
    approach: &mut Approach<'_, G>,
    target: Option<Target>,
) -> Option<Target>
    ensures found { let course = approach.old in
        MatchOption result (fits_all course.front (G.value course.gradient) course.brakes (listed target) course.speed ≡ true)
        (λ found. (target ≡ Some found) × (fits course.front (G.value course.gradient) course.brakes found course.speed ≡ false)) }
    ensures same { approach.new ≡ approach.old }
{
    match target {
        Some(target) if !approach.fits(&target) => Some(target),
        _ => None,
    }
}

// Among the static speeds.
fn unfit_static_speed<S: Profile<CategorySpeeds>, G: Profile<Permille>>(
    ahead: &Ahead<'_, S, G>,
    approach: &mut Approach<'_, G>,
) -> Option<TargetAhead>
    requires { approach.old ≡ course_by ahead.now approach.old.speed }
    ensures found { let journey = journey_by S.value G.value ahead.now in
        MatchOption result
        (fits_all_on journey (over_ahead journey.front (static_targets journey.bounds journey.track.static)) approach.old.speed ≡ true)
        (IsUnfit journey approach.old.speed) }
    ensures kind { IfSome result (λ found. order_of found.kind ≡ 0) }
    ensures same { approach.new ≡ approach.old }
{
    let mut start = next_after(ahead.front);
    let mut near = 0;
    while let Some(place) = start {
        let here = ahead.track.speeds.piece(place, near);
        let requested = static_target(ahead.bounds, place, here.value);
        if let Some(target) = unfit(approach, requested) {
            let kind = static_kind(&here.value);
            return Some(TargetAhead { target, kind });
        }
        start = here.next;
        near = here.near;
    }
    None
}

// What asks for a speed where a static speed is known, or none is.
fn static_kind(speeds: &Option<CategorySpeeds>) -> TargetKind
    ensures { result ≡ static_kind speeds.now }
{
    match speeds {
        Some(_) => TargetKind::StaticSpeed,
        None => TargetKind::UnknownSpeed,
    }
}

// Among the restrictions.
fn unfit_restriction<S: Profile<CategorySpeeds>, G: Profile<Permille>>(
    ahead: &Ahead<'_, S, G>,
    approach: &mut Approach<'_, G>,
) -> Option<TargetAhead>
    requires { approach.old ≡ course_by ahead.now approach.old.speed }
    ensures found { let journey = journey_by S.value G.value ahead.now in let held = journey.track.restrictions in
        MatchOption result
        (fits_all_on journey (over_ahead journey.front (restriction_targets held.mark held.restrictions)) approach.old.speed ≡ true)
        (IsUnfit journey approach.old.speed) }
    ensures kind { IfSome result (λ found. order_of found.kind ≡ 1) }
    ensures same { approach.new ≡ approach.old }
{
    let mark = ahead.track.restrictions.mark();
    let restrictions = ahead.track.restrictions.as_slice();
    for restriction in restrictions {
        let requested = first_target(ahead.front, mark, restriction);
        if let Some(target) = unfit(approach, requested) {
            let kind = TargetKind::Restriction(*restriction);
            return Some(TargetAhead { target, kind });
        }
    }
    None
}

// Among the mode areas.
fn unfit_area<S: Profile<CategorySpeeds>, G: Profile<Permille>>(
    ahead: &Ahead<'_, S, G>,
    approach: &mut Approach<'_, G>,
) -> Option<TargetAhead>
    requires { approach.old ≡ course_by ahead.now approach.old.speed }
    ensures found { let journey = journey_by S.value G.value ahead.now in
        MatchOption result
        (fits_all_on journey (over_ahead journey.front (area_targets journey.track.national journey.track.areas)) approach.old.speed ≡ true)
        (IsUnfit journey approach.old.speed) }
    ensures kind { IfSome result (λ found. order_of found.kind ≡ 2) }
    ensures same { approach.new ≡ approach.old }
{
    let areas = ahead.track.areas.as_slice();
    for area in areas {
        let requested = first_in_area(ahead.front, &ahead.track.national, area);
        if let Some(target) = unfit(approach, requested) {
            let kind = TargetKind::Area(*area);
            return Some(TargetAhead { target, kind });
        }
    }
    None
}
