//! The permitted speed, in Full Supervision and On Sight.
ghost use Rattle.std.specs.Prelude.{◌≡◌};
ghost use Rattle.driver.specs.Limits.{Train};
ghost use Rattle.speed_supervision.specs.Limit.{bounds_of, in_areas, along, permitted_speed, permitted_for};
ghost use Rattle.speed_profile.specs.Track.{speeds_along};
ghost use Rattle.mode_control.specs.Life.{Life, driver_of};
ghost use Rattle.mode_control.specs.StandsFor.{StandsForLife};

use crate::by_mode::values;
use crate::release::released_by;
use areas::NationalSpeeds;
use driver::{Datum, TrainData};
use mode_control::SupervisionOver;
use national::Values;
use speed_profile::{Ahead, Bounds, Track, limit_on};
use track_picture::ProfileStores;
use units::Mph;

/// What limits the train wherever it is.
#[inline(always)]
pub fn bounds<T: ProfileStores>(supervision: &SupervisionOver<T>, train: &TrainData) -> Bounds
    ensures { (life : Life) → StandsForLife T.stores supervision.now life → result ≡ bounds_of life train.now }
{
    let authority = supervision.track().authority();
    Bounds {
        maximum: train.maximum(),
        category: train.category(),
        main: authority.main_speed(),
        end: authority.end(),
    }
}

/// The national values for the speeds in areas.
pub(crate) fn in_areas(values: &Values) -> NationalSpeeds
    ensures { result ≡ in_areas values.now }
{
    NationalSpeeds {
        on_sight: values.on_sight,
        shunting: values.shunting,
    }
}

/// The speeds along the track.
pub fn along<T: ProfileStores>(supervision: &SupervisionOver<T>) -> Track<'_, T::Speeds>
    ensures { (life : Life) → StandsForLife T.stores supervision.now life → speeds_along T.Speeds.value result ≡ along life }
{
    let track = supervision.track();
    Track {
        speeds: track.speeds(),
        restrictions: track.restrictions(),
        areas: track.areas(),
        national: in_areas(values(supervision)),
    }
}

fn permitted_speed<T: ProfileStores>(supervision: &SupervisionOver<T>, train: &TrainData) -> Mph
    ensures { (life : Life) → StandsForLife T.stores supervision.now life → result ≡ permitted_speed life train.now }
{
    let stretch = supervision.stretch();
    let bounds = bounds(supervision, train);
    let track = along(supervision);
    let brakes = train.brakes();
    let ahead = Ahead {
        front: stretch.max_front(),
        bounds: &bounds,
        track: &track,
        gradient: supervision.track().gradients(),
        brakes: &brakes,
    };
    let limit = limit_on(&stretch, &bounds, &track);
    released_by(&ahead, limit, &bounds.end, values(supervision).release)
}

/// The permitted speed, in metres per hour; 0 where the train data aren't valid (this project's profile).
pub fn permitted_for<T: ProfileStores>(supervision: &SupervisionOver<T>) -> Mph
    ensures { (life : Life) → StandsForLife T.stores supervision.now life → result ≡ permitted_for life (driver_of life).train_data }
{
    match supervision.driver().train_data() {
        Datum::Valid(train) => permitted_speed(supervision, &train),
        Datum::Unknown | Datum::Invalid(_) => Mph::new(0).unwrap(),
    }
}
