//! The least speed of a profile along a stretch of track.
ghost use Rattle.std.specs.Prelude.{◌≡◌};
ghost use Rattle.units.specs.Stretches.{over, least};
ghost use Rattle.track_store.specs.Profiles.{listed, lesser};

use crate::Profile;
use units::{Cm, Mph};

/// The least of a speed and of a profile's values from one centimetre to another, both included. It goes from change to
/// change, and takes no memory.
pub fn least_over<P: Profile<Mph>>(profile: &P, from: Cm, to: Cm, otherwise: Mph) -> Mph
    ensures { result ≡ least otherwise (over (λ place. listed (P.value profile.now place)) from to) }
{
    let mut limit = otherwise;
    let mut place = from;
    let mut near = 0;
    while place <= to {
        let here = profile.piece(place, near);
        limit = lesser_of(limit, here.value);
        near = here.near;
        match here.next {
            Some(next) => place = next,
            None => return limit,
        }
    }
    limit
}

// The lesser of a speed and of a value, if there is one.
fn lesser_of(limit: Mph, value: Option<Mph>) -> Mph
    ensures { result ≡ lesser limit value }
{
    match value {
        Some(speed) if speed < limit => speed,
        _ => limit,
    }
}
