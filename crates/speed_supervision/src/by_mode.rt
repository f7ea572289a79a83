//! The limit in each mode, and the speeds that count there.
ghost use Rattle.std.specs.Prelude.{◌≡◌};
ghost use Rattle.speed_supervision.specs.Limit.{within_maximum, maximum_in, restricted, while_overridden, responsible_limit, unfitted_limit, limit_in, limit};
ghost use Rattle.mode_control.specs.Conditions.{is_overridden};
ghost use Rattle.mode_control.specs.Life.{Life};
ghost use Rattle.mode_control.specs.Sentences.{values_of};
ghost use Rattle.mode_control.specs.StandsFor.{StandsForLife};

use crate::permitted::permitted_for;
use driver::{Datum, TrainData};
use mode_control::SupervisionOver;
use mode_table::Mode;
use national::Values;
use track_picture::ProfileStores;
use units::Mph;

// The lesser of a speed and the train's maximum.
fn within_maximum(train: &Datum<TrainData>, speed: Mph) -> Mph
    ensures { result ≡ within_maximum train.now speed }
{
    match train {
        Datum::Valid(train) => speed.min(train.maximum()),
        Datum::Unknown | Datum::Invalid(_) => speed,
    }
}

/// The national values in force.
pub fn values<T: ProfileStores>(supervision: &SupervisionOver<T>) -> &Values
    ensures { (life : Life) → StandsForLife T.stores supervision.now life → result.now ≡ values_of life }
{
    supervision.track().national().values()
}

fn maximum_in<T: ProfileStores>(supervision: &SupervisionOver<T>, speed: Mph) -> Mph
    ensures { (life : Life) → StandsForLife T.stores supervision.now life → result ≡ maximum_in life speed }
{
    within_maximum(&supervision.driver().train_data(), speed)
}

// The least of a speed and of the restrictions in force over the train.
fn restricted<T: ProfileStores>(supervision: &SupervisionOver<T>, speed: Mph) -> Mph
    ensures { (life : Life) → StandsForLife T.stores supervision.now life → result ≡ restricted life speed }
{
    let stretch = supervision.stretch();
    supervision.track().restrictions().least(&stretch, speed)
}

// The least of a speed and of that of an override, while one is active.
fn while_overridden<T: ProfileStores>(supervision: &SupervisionOver<T>, speed: Mph) -> Mph
    ensures { (life : Life) → StandsForLife T.stores supervision.now life → result ≡ while_overridden life speed }
{
    if supervision.is_overridden() {
        speed.min(values(supervision).override_speed)
    } else {
        speed
    }
}

fn responsible_limit<T: ProfileStores>(supervision: &SupervisionOver<T>) -> Mph
    ensures { (life : Life) → StandsForLife T.stores supervision.now life → result ≡ responsible_limit life }
{
    let national = values(supervision).staff_responsible;
    let own = maximum_in(supervision, national);
    restricted(supervision, while_overridden(supervision, own))
}

fn unfitted_limit<T: ProfileStores>(supervision: &SupervisionOver<T>) -> Mph
    ensures { (life : Life) → StandsForLife T.stores supervision.now life → result ≡ unfitted_limit life }
{
    let national = values(supervision).unfitted;
    restricted(supervision, maximum_in(supervision, national))
}

fn limit_in<T: ProfileStores>(mode: Mode, supervision: &SupervisionOver<T>) -> Mph
    ensures { (life : Life) → StandsForLife T.stores supervision.now life → result ≡ limit_in mode life }
{
    match mode {
        Mode::FullSupervision | Mode::OnSight => permitted_for(supervision),
        Mode::StaffResponsible => responsible_limit(supervision),
        Mode::Unfitted => unfitted_limit(supervision),
        Mode::Shunting => values(supervision).shunting,
        Mode::StandBy | Mode::Trip | Mode::PostTrip | Mode::SystemFailure => Mph::new(0).unwrap(),
    }
}

/// The speed that the train may run now, by the mode, in metres per hour (SUBSET-026, 3.12, 3.13; what counts in which
/// mode: this project's profile).
pub fn limit<T: ProfileStores>(supervision: &SupervisionOver<T>) -> Mph
    ensures { (life : Life) → StandsForLife T.stores supervision.now life → result ≡ limit life }
{
    let mode = supervision.mode();
    limit_in(mode, supervision)
}
