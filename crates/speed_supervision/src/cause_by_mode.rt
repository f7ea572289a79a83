//! What decides the limit, by the mode.
ghost use Rattle.std.specs.Prelude.{◌≡◌, ◌==◌, ◌&&◌, ℕ, MatchOption, IfNone, MatchBool};
ghost use Rattle.mode_control.specs.Conditions.{is_overridden};
ghost use Rattle.mode_control.specs.Life.{Life, driver_of};
ghost use Rattle.mode_control.specs.Sentences.{values_of, span_of};
ghost use Rattle.mode_control.specs.StandsFor.{StandsForLife};
ghost use Rattle.speed_supervision.specs.Limit.{within_maximum, restricted, responsible_limit, unfitted_limit, permitted_speed, permitted_for, limit as limit_of};
ghost use Rattle.speed_supervision.specs.Supervised.{IsCause};
ghost use Rattle.speed_supervision.specs.Causes.{journey_of, IsRestrictedBy, IsUnrestricted, IsMaximum, IsResponsibleCause, IsUnfittedCause, IsPermittedCause, IsLimitCause};

use crate::{
    LimitCause, NationalValue, OverTrain, SpeedCause, along, bounds, limit, restriction_over,
    supervised_cause, values,
};
use driver::{Datum, TrainData};
use mode_control::SupervisionOver;
use mode_table::Mode;
use speed_profile::Ahead;
use track_picture::ProfileStores;
use track_store::Restriction;
use units::Mph;

/// What decides the limit that `limit` answers (SUBSET-026, 3.11 to 3.13 and 4.4; which of those of equal force is
/// named: this project's profile). It is worked out where it is asked, and takes no memory. Which packet and which
/// balise group brought it isn't known.
pub fn limit_cause<T: ProfileStores>(supervision: &SupervisionOver<T>) -> LimitCause
    ensures { (life : Life) → StandsForLife T.stores supervision.now life → IsLimitCause life (limit_of life) result }
{
    match supervision.mode() {
        Mode::FullSupervision | Mode::OnSight => permitted_cause(supervision),
        Mode::StaffResponsible => responsible_cause(supervision, limit(supervision)),
        Mode::Unfitted => unfitted_cause(supervision, limit(supervision)),
        Mode::Shunting => LimitCause::National(NationalValue::Shunting),
        Mode::StandBy | Mode::Trip | Mode::PostTrip | Mode::SystemFailure => LimitCause::NoSpeed,
    }
}

fn permitted_cause<T: ProfileStores>(supervision: &SupervisionOver<T>) -> LimitCause
    ensures { (life : Life) → StandsForLife T.stores supervision.now life
        → IsPermittedCause life (permitted_for life (driver_of life).train_data) result (driver_of life).train_data }
{
    match supervision.driver().train_data() {
        Datum::Valid(train) => LimitCause::Speed(train_cause(supervision, &train)),
        Datum::Unknown | Datum::Invalid(_) => LimitCause::NoTrainData,
    }
}

fn train_cause<T: ProfileStores>(supervision: &SupervisionOver<T>, train: &TrainData) -> SpeedCause
    ensures { (life : Life) → StandsForLife T.stores supervision.now life
        → IsCause (span_of life) (journey_of life train.now) (values_of life).release (permitted_speed life train.now) result }
{
    let stretch = supervision.stretch();
    let bounds = bounds(supervision, train);
    let track = along(supervision);
    let brakes = train.brakes();
    let ahead = Ahead {
        front: stretch.max_front(),
        bounds: &bounds,
        track: &track,
        gradient: supervision.track().gradients(),
        brakes: &brakes,
    };
    supervised_cause(&stretch, &ahead, values(supervision).release)
}

fn responsible_cause<T: ProfileStores>(supervision: &SupervisionOver<T>, limit: Mph) -> LimitCause
    requires { (life : Life) → StandsForLife T.stores supervision.now life → limit ≡ responsible_limit life }
    ensures { (life : Life) → StandsForLife T.stores supervision.now life → IsResponsibleCause life limit result }
{
    if let Some(restriction) = restriction_in(supervision, limit) {
        return LimitCause::Speed(SpeedCause::OverTrain(OverTrain::Restriction(restriction)));
    }
    if is_override(supervision, limit) {
        return LimitCause::National(NationalValue::Override);
    }
    if is_maximum(&supervision.driver().train_data(), limit) {
        return LimitCause::Speed(SpeedCause::OverTrain(OverTrain::Maximum));
    }
    LimitCause::National(NationalValue::StaffResponsible)
}

fn unfitted_cause<T: ProfileStores>(supervision: &SupervisionOver<T>, limit: Mph) -> LimitCause
    requires { (life : Life) → StandsForLife T.stores supervision.now life → limit ≡ unfitted_limit life }
    ensures { (life : Life) → StandsForLife T.stores supervision.now life → IsUnfittedCause life limit result }
{
    if let Some(restriction) = restriction_in(supervision, limit) {
        return LimitCause::Speed(SpeedCause::OverTrain(OverTrain::Restriction(restriction)));
    }
    if is_maximum(&supervision.driver().train_data(), limit) {
        return LimitCause::Speed(SpeedCause::OverTrain(OverTrain::Maximum));
    }
    LimitCause::National(NationalValue::Unfitted)
}

// The first restriction in force over the train that has this speed.
fn restriction_in<T: ProfileStores>(
    supervision: &SupervisionOver<T>,
    limit: Mph,
) -> Option<Restriction>
    ensures over { (life : Life) → StandsForLife T.stores supervision.now life
        → MatchOption result ((speed : ℕ) → restricted life speed ≡ limit → speed ≡ limit) (IsRestrictedBy life limit) }
    ensures none { (life : Life) → StandsForLife T.stores supervision.now life → IfNone result (IsUnrestricted life limit) }
{
    let stretch = supervision.stretch();
    restriction_over(supervision.track().restrictions(), &stretch, limit)
}

// Whether this is the speed of an override that is active.
fn is_override<T: ProfileStores>(supervision: &SupervisionOver<T>, limit: Mph) -> bool
    ensures { (life : Life) → StandsForLife T.stores supervision.now life
        → result ≡ (is_overridden life && ((values_of life).override_speed == limit)) }
{
    supervision.is_overridden() && values(supervision).override_speed == limit
}

// Whether this is the greatest speed of a train whose data are valid.
fn is_maximum(train: &Datum<TrainData>, limit: Mph) -> bool
    ensures { MatchBool result (IsMaximum limit train.now)
        (((speed : ℕ) → within_maximum train.now speed ≡ limit → speed ≡ limit) × (IsMaximum limit train.now → ⊥)) }
{
    match train {
        Datum::Valid(train) => train.maximum() == limit,
        Datum::Unknown | Datum::Invalid(_) => false,
    }
}
