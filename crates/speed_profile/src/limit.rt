//! The speed that holds where the train is.
ghost use Rattle.std.specs.Prelude.{◌≡◌};
ghost use Rattle.track_store.specs.Profiles.{lesser};
ghost use Rattle.speed_profile.specs.Limit.{speed_at_end, bound_speed, limit_on};
ghost use Rattle.speed_profile.specs.Track.{speeds_along};

use crate::limiting::Limiting;
use crate::{CategorySpeeds, Track};
use authority::End;
use track_store::{Profile, least_over};
use units::{Cm, Mph, Stretch};
use vars::TrainCategory;

/// What limits the train's speed wherever it is (SUBSET-026, 3.11).
#[derive(Clone, Copy)]
pub struct Bounds {
    /// The train's greatest speed, in metres per hour.
    pub maximum: Mph,
    /// The train's category (NC_TRAIN).
    pub category: TrainCategory,
    /// V_MAIN of the stored authority, in metres per hour; None without one.
    pub main: Option<Mph>,
    /// The end of the stored authority; None without one.
    pub end: Option<End>,
}

/// The greatest speed of a train that may cover this stretch (this project's profile): the least of
/// its greatest speed, of V_MAIN, of V_LOA once its maximum safe front is at the end, of the static speeds, of the
/// restrictions and of the mode areas that its front may be in. Takes no memory.
pub fn limit_on<S: Profile<CategorySpeeds>>(
    train: &Stretch,
    bounds: &Bounds,
    track: &Track<'_, S>,
) -> Mph
    ensures { result ≡ limit_on train.now bounds.now (speeds_along S.value track.now) }
{
    let limiting = Limiting {
        speeds: track.speeds,
        category: bounds.category,
        min_front: train.min_front(),
    };
    let bound = bound_speed(train.max_front(), bounds);
    let least = least_over(&limiting, train.rear(), train.max_front(), bound);
    let restricted = track.restrictions.least(train, least);
    track.areas.least(train, &track.national, restricted)
}

// The least of what holds wherever the train is, its maximum safe front being at a place.
fn bound_speed(front: Cm, bounds: &Bounds) -> Mph
    ensures { result ≡ bound_speed front bounds.now }
{
    let limit = lesser_of(bounds.maximum, bounds.main);
    lesser_of(limit, speed_at_end(front, &bounds.end))
}

// V_LOA, where it limits.
fn speed_at_end(front: Cm, end: &Option<End>) -> Option<Mph>
    ensures { result ≡ speed_at_end front end.now }
{
    match end {
        Some(end) if end.place <= front && end.speed.get() > 0 => Some(end.speed),
        _ => None,
    }
}

// The lesser of a speed and of another one, if there is one.
fn lesser_of(limit: Mph, value: Option<Mph>) -> Mph
    ensures { result ≡ lesser limit value }
{
    match value {
        Some(speed) if speed < limit => speed,
        _ => limit,
    }
}
