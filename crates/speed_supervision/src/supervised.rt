//! What decides the permitted speed, by the release rule.
ghost use Rattle.std.specs.Prelude.{◌≡◌, ◌<◌, ◌+◌, ℕ, IfSome, MatchOption};
ghost use Rattle.speed_profile.specs.Ahead.{permitted_ahead};
ghost use Rattle.speed_supervision.specs.declared.cause.TargetKind.TheVariants.{EndOfAuthority, SupervisedLocation};
ghost use Rattle.speed_supervision.specs.Targets.{journey_by, target_of};
ghost use Rattle.speed_supervision.specs.Supervised.{limit_here, permitted_to, permitted_on, IsDeciding, IsLast, IsCause};

use crate::ahead::first_unfit;
use crate::release::release_speed;
use crate::{SpeedCause, TargetAhead, TargetKind, over_train};
use authority::End;
use braking::Target;
use speed_profile::{Ahead, CategorySpeeds, limit_on};
use track_store::Profile;
use units::{Mph, Permille, Stretch};

/// What decides the permitted speed of a train, with the national release speed in metres per hour: what limits it
/// where it is; else the first target ahead that no greater speed fits, along the track, then the last one; or the
/// release speed. Of those of equal force the first is named: what limits it where it is, then of what lies ahead a
/// static speed, a restriction, a mode area, the end of authority, and the supervised location.
pub fn supervised_cause<S: Profile<CategorySpeeds>, G: Profile<Permille>>(
    train: &Stretch,
    ahead: &Ahead<'_, S, G>,
    national: Mph,
) -> SpeedCause
    ensures { let journey = journey_by S.value G.value ahead.now in
        IsCause train.now journey national (permitted_on train.now journey national) result }
{
    let Some(end) = ahead.bounds.end else {
        return cause_to(train, ahead, None);
    };
    let limit = limit_on(train, ahead.bounds, ahead.track);
    let to_end = end_of(&end);
    let to_location = location_of(&end);
    let either = ahead.permitted_for_either(limit, to_end.target, to_location.target);
    let (reached, stopped) = either;
    let release = release_speed(end.release, national);
    let released = release.min(stopped);
    if released <= reached {
        return cause_to(train, ahead, Some(to_end));
    }
    if release < stopped {
        return SpeedCause::Release(end.release);
    }
    cause_to(train, ahead, Some(to_location))
}

// The end of authority as a target.
fn end_of(end: &End) -> TargetAhead
    ensures { result ≡ record { target = record { place = end.now.place; speed = end.now.speed }; kind = EndOfAuthority } }
{
    TargetAhead {
        target: Target {
            place: end.place,
            speed: end.speed,
        },
        kind: TargetKind::EndOfAuthority,
    }
}

// The supervised location as a target.
fn location_of(end: &End) -> TargetAhead
    ensures { result ≡ record { target = record { place = end.now.location; speed = 0 }; kind = SupervisedLocation } }
{
    TargetAhead {
        target: Target {
            place: end.location,
            speed: Mph::new(0).unwrap(),
        },
        kind: TargetKind::SupervisedLocation,
    }
}

// What decides the greatest speed up to the limit where the train is, from which it can brake for all that lies ahead
// and for a last target.
fn cause_to<S: Profile<CategorySpeeds>, G: Profile<Permille>>(
    train: &Stretch,
    ahead: &Ahead<'_, S, G>,
    last: Option<TargetAhead>,
) -> SpeedCause
    requires { let journey = journey_by S.value G.value ahead.now in
        IfSome last (IsLast journey (limit_here train.now journey) (permitted_to train.now journey (target_of last))) }
    ensures { let journey = journey_by S.value G.value ahead.now in
        (national : ℕ) → IsCause train.now journey national (permitted_to train.now journey (target_of last)) result }
{
    let limit = limit_on(train, ahead.bounds, ahead.track);
    match deciding(ahead, limit, last) {
        Some(found) => SpeedCause::Ahead(found),
        None => SpeedCause::OverTrain(over_train(train, ahead.bounds, ahead.track, limit)),
    }
}

// The target that decides the greatest speed up to a limit; None where the limit itself fits all.
fn deciding<S: Profile<CategorySpeeds>, G: Profile<Permille>>(
    ahead: &Ahead<'_, S, G>,
    limit: Mph,
    last: Option<TargetAhead>,
) -> Option<TargetAhead>
    requires { let journey = journey_by S.value G.value ahead.now in
        let permitted = permitted_ahead journey.front limit (target_of last) journey.bounds journey.track journey.gradient journey.brakes in
        IfSome last (IsLast journey limit permitted) }
    ensures { let journey = journey_by S.value G.value ahead.now in
        let permitted = permitted_ahead journey.front limit (target_of last) journey.bounds journey.track journey.gradient journey.brakes in
        MatchOption result (permitted ≡ limit) (IsDeciding journey limit permitted) }
{
    let permitted = ahead.permitted(limit, target_of(&last));
    if limit <= permitted {
        return None;
    }
    let faster = one_faster(permitted, limit);
    if let Some(found) = first_unfit(ahead, faster) {
        return Some(found);
    }
    last
}

fn target_of(last: &Option<TargetAhead>) -> Option<Target>
    ensures { result ≡ target_of last.now }
{
    match last {
        Some(last) => Some(last.target),
        None => None,
    }
}

// The next speed above one that is below another.
fn one_faster(speed: Mph, limit: Mph) -> Mph
    requires { speed < limit }
    ensures { result ≡ speed + 1 }
{
    let _limits = limit.get();
    Mph::new_unchecked(speed.get() + 1)
}
