//! What limits a train where it is, named.
ghost use Rattle.std.specs.Prelude.{◌≡◌, ◌==◌, ◌&&◌, ◌≤ℤ◌, ℕ, ℤ, true, not, int_lt, Some, find, MatchOption, IfNone};
ghost use Rattle.units.specs.Stretches.{Span};
ghost use Rattle.areas.specs.Areas.{is_before, is_met, speed_in};
ghost use Rattle.track_store.specs.Meeting.{meets};
ghost use Rattle.track_store.specs.declared.restriction.Restriction.{Restriction as a_restriction};
ghost use Rattle.track_store.specs.Restrictions.{least_speed};
ghost use Rattle.speed_profile.specs.Limit.{counts_at, limiting_value, bound_speed, limit_on};
ghost use Rattle.speed_profile.specs.Track.{TrackSpeeds, speeds_along};
ghost use Rattle.speed_supervision.specs.Over.{IsStaticSpeedOver, IsRestrictionOver, IsOver, NoneOver, IsFirstOver};

use crate::OverTrain;
use areas::{Area, Areas, NationalSpeeds};
use speed_profile::{Bounds, CategorySpeeds, Track};
use track_store::{Piece, Profile, Restriction, Restrictions};
use units::{Cm, Mph, Stretch};
use vars::{TrainCategory, TrainLengthDelay};

/// What limits a train to the speed that `speed_profile::limit_on` answers for where it is, in metres per hour: the
/// first area, restriction or static speed that does, else V_LOA, V_MAIN or the train's greatest speed, in this order.
pub fn over_train<S: Profile<CategorySpeeds>>(
    train: &Stretch,
    bounds: &Bounds,
    track: &Track<'_, S>,
    limit: Mph,
) -> OverTrain
    requires { limit ≡ limit_on train.now bounds.now (speeds_along S.value track.now) }
    ensures over { IsOver train.now bounds.now (speeds_along S.value track.now) limit result }
    ensures first { IsFirstOver train.now bounds.now (speeds_along S.value track.now) limit result }
{
    if let Some(area) = area_over(track.areas, &track.national, train, limit) {
        return OverTrain::Area(area);
    }
    if let Some(restriction) = restriction_over(track.restrictions, train, limit) {
        return OverTrain::Restriction(restriction);
    }
    if let Some(place) = static_speed_over(track.speeds, bounds.category, train, limit) {
        return OverTrain::StaticSpeed(place);
    }
    bound_over(train.max_front(), bounds, limit)
}

// The first mode area over a train that has this speed.
fn area_over(areas: &Areas, national: &NationalSpeeds, train: &Stretch, limit: Mph) -> Option<Area>
    ensures { result ≡ find (λ area. is_met train.now area && (speed_in national.now area == limit)) areas.now }
{
    areas.as_slice().iter().copied().find(|area| area.is_met(train)
        && area.speed_in(national) == limit)
}

/// The first restriction over a train that has this speed.
pub fn restriction_over(
    restrictions: &Restrictions,
    train: &Stretch,
    limit: Mph,
) -> Option<Restriction>
    ensures over { MatchOption result
        ((speed : ℕ) → least_speed restrictions.now.track train.now speed ≡ limit → speed ≡ limit)
        (IsRestrictionOver restrictions.now.track train.now limit) }
    ensures none { IfNone result ((speed_restriction : a_restriction) → IsRestrictionOver restrictions.now.track train.now limit speed_restriction → ⊥) }
{
    let first = restrictions.mark().max(train.rear());
    first_met(restrictions.as_slice(), first, train, limit)
}

// The first of some restrictions that has this speed and is met, where no track before a first centimetre counts.
fn first_met(
    restrictions: &[Restriction],
    first: Cm,
    train: &Stretch,
    limit: Mph,
) -> Option<Restriction>
    ensures { result ≡ find (λ restriction. meets first train.now restriction && (restriction.speed == limit)) restrictions.now }
{
    restrictions.iter().copied().find(|restriction| restriction.meets(first, train)
        && restriction.speed == limit)
}

// The first centimetre under a train whose static speed limits it to this one.
fn static_speed_over<S: Profile<CategorySpeeds>>(
    speeds: &S,
    category: TrainCategory,
    train: &Stretch,
    limit: Mph,
) -> Option<Cm>
    ensures { MatchOption result
        ((place : ℤ) → IsStaticSpeedOver (S.value speeds.now) category train.now limit place → ⊥)
        (IsStaticSpeedOver (S.value speeds.now) category train.now limit) }
{
    let last = train.max_front();
    let mut place = train.rear();
    let mut near = 0;
    while place <= last {
        let here = speeds.piece(place, near);
        let found = limited_on(&here, category, place, train, limit);
        if found.is_some() {
            return found;
        }
        near = here.near;
        match here.next {
            Some(next) => place = next,
            None => return None,
        }
    }
    None
}

// The first centimetre of a piece that begins at a place, no farther than the train reaches, whose static speed limits
// it to this one.
fn limited_on(
    here: &Piece<CategorySpeeds>,
    category: TrainCategory,
    place: Cm,
    train: &Stretch,
    limit: Mph,
) -> Option<Cm>
    ensures { MatchOption result
        ((there : ℤ) → place ≤ℤ there → is_before there here.now.next ≡ true → there ≤ℤ train.now.max_front
        → limiting_value category train.now.min_front there here.now.value ≡ Some limit → ⊥)
        (λ first. (place ≤ℤ first) × (is_before first here.now.next ≡ true) × (first ≤ℤ train.now.max_front)
        × (limiting_value category train.now.min_front first here.now.value ≡ Some limit)) }
{
    let Some(first) = limited_in(here.value, category, place, train.min_front(), limit) else {
        return None;
    };
    if is_within(first, here.next, train.max_front()) {
        return Some(first);
    }
    None
}

// The first centimetre from a place on at which a static speed, if it holds there, limits a train to this speed.
fn limited_in(
    value: Option<CategorySpeeds>,
    category: TrainCategory,
    place: Cm,
    min_front: Cm,
    limit: Mph,
) -> Option<Cm>
    ensures { MatchOption result
        ((there : ℤ) → limiting_value category min_front there value ≡ Some limit → ⊥)
        (λ first. (place ≤ℤ first) × (limiting_value category min_front first value ≡ Some limit)
        × ((there : ℤ) → place ≤ℤ there → limiting_value category min_front there value ≡ Some limit → first ≤ℤ there)) }
{
    match value {
        Some(speeds) if speeds.for_category(category) == limit => {
            Some(first_limited(&speeds, place, min_front))
        }
        _ => None,
    }
}

// The first centimetre from a place on at which a static speed counts.
fn first_limited(speeds: &CategorySpeeds, place: Cm, min_front: Cm) -> Cm
    ensures from { place ≤ℤ result }
    ensures counts { counts_at min_front result speeds.now.delay ≡ true }
    ensures first { (there : ℤ) → place ≤ℤ there → counts_at min_front there speeds.now.delay ≡ true → result ≤ℤ there }
{
    match speeds.delay {
        TrainLengthDelay::Applied => place,
        TrainLengthDelay::NotApplied => place.max(min_front),
    }
}

// Whether a centimetre lies before the next piece, and no farther than another one.
fn is_within(place: Cm, next: Option<Cm>, last: Cm) -> bool
    ensures { result ≡ (is_before place next && not (int_lt last place)) }
{
    let before = match next {
        None => true,
        Some(next) => place < next,
    };
    before && place <= last
}

// Which of what holds wherever the train is limits it to a speed, its maximum safe front being at a place.
fn bound_over(front: Cm, bounds: &Bounds, limit: Mph) -> OverTrain
    requires { limit ≡ bound_speed front bounds.now }
    ensures over { (train : Span) (track : TrackSpeeds) → train.max_front ≡ front → IsOver train bounds.now track limit result }
    ensures bound { (train : Span) (track : TrackSpeeds) → train.max_front ≡ front →
        NoneOver train bounds.now track limit → IsFirstOver train bounds.now track limit result }
{
    match bounds.end {
        Some(end) if end.place <= front && end.speed.get() > 0 && end.speed == limit => {
            return OverTrain::End;
        }
        _ => {}
    }
    match bounds.main {
        Some(main) if main == limit => OverTrain::Main,
        _ => OverTrain::Maximum,
    }
}
