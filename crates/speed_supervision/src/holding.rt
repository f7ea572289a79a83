//! Whether a limit holds wherever a train is between two stretches.
ghost use Rattle.std.specs.Prelude.{◌≡◌, IfSome};
ghost use Rattle.std.specs.Option.{option_map};
ghost use Rattle.speed_supervision.specs.Limit.{the_end};
ghost use Rattle.speed_supervision.specs.Steady.{HoldsBetween};
ghost use Rattle.speed_supervision.specs.Targets.{journey_by};

use crate::release::target;
use authority::End;
use braking::Target;
use speed_profile::{Ahead, CategorySpeeds, limit_on, next_after};
use track_store::{Profile, ProfileStore};
use units::{Mph, Permille, Stretch};

/// The limit of a train wherever it covers no more than the widest stretch and no less than the narrowest one, where what
/// lies ahead is that of the widest stretch's front. None where no single limit is found. Up to that front a train meets
/// only what lies over the widest stretch, and it can brake for all beyond.
pub fn limit_between<S: ProfileStore<CategorySpeeds>, G: Profile<Permille>>(
    widest: &Stretch,
    narrowest: &Stretch,
    ahead: &Ahead<'_, S, G>,
) -> Option<Mph>
    requires { ahead.now.front ≡ widest.now.max_front }
    ensures { IfSome result (HoldsBetween widest.now narrowest.now (journey_by S.value G.value ahead.now)) }
{
    let limit = limit_on(widest, ahead.bounds, ahead.track);
    if ahead.permitted(limit, last_target(&ahead.bounds.end)) != limit {
        return None;
    }
    let beyond = next_after(widest.max_front())?;
    let speeds = ahead.track.speeds;
    if !speeds.is_known_throughout(narrowest.max_front(), beyond) {
        return None;
    }
    if limit_on(narrowest, ahead.bounds, ahead.track) != limit {
        return None;
    }
    Some(limit)
}

// The end of authority, where there is one.
fn last_target(end: &Option<End>) -> Option<Target>
    ensures { result ≡ option_map the_end end.now }
{
    match end {
        Some(end) => Some(target(end.place, end.speed)),
        None => None,
    }
}
