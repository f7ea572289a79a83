//! The release rule.
ghost use Rattle.std.specs.Prelude.{◌≡◌};
ghost use Rattle.speed_supervision.specs.Limit.{release_speed, released_by};
ghost use Rattle.speed_profile.specs.Ahead.{permitted_ahead};
ghost use Rattle.speed_profile.specs.Track.{speeds_along};

use authority::{End, Release};
use braking::Target;
use speed_profile::{Ahead, CategorySpeeds};
use track_store::Profile;
use units::{Cm, Mph, Permille};

/// The permitted speed up to a limit, by the release rule, in metres per hour (this project's profile).
pub fn released_by<S: Profile<CategorySpeeds>, G: Profile<Permille>>(
    ahead: &Ahead<'_, S, G>,
    limit: Mph,
    end: &Option<End>,
    national: Mph,
) -> Mph
    ensures { result ≡ released_by (λ last. permitted_ahead ahead.now.front limit last ahead.now.bounds.now
        (speeds_along S.value ahead.now.track.now) (G.value ahead.now.gradient.now) ahead.now.brakes.now) end.now national }
{
    let Some(end) = end else {
        return ahead.permitted(limit, None);
    };
    let stop = target(end.location, Mph::new(0).unwrap());
    let (to_end, to_location) = ahead.permitted_for_either(
        limit,
        target(end.place, end.speed),
        stop,
    );
    to_end.max(to_location.min(release_speed(end.release, national)))
}

/// A place with the greatest speed there.
pub fn target(place: Cm, speed: Mph) -> Target
    ensures { result ≡ record { place = place; speed = speed } }
{
    Target { place, speed }
}

/// The release speed that holds, in metres per hour: that of the authority, or the national value.
pub fn release_speed(release: Release, national: Mph) -> Mph
    ensures { result ≡ release_speed release national }
{
    match release {
        Release::Speed(speed) => speed,
        Release::National => national,
    }
}
