//! Equality of outputs, as a proof can rely on it. (`Eq` promises an equivalence only.)
ghost use Rattle.std.specs.Prelude.{◌≡◌, IsTrue};

use events::{Brake, Indications, Output};
use mode_table::{Mode, TrainLevel};

fn is_same_mode(one: Mode, other: Mode) -> bool
    ensures { IsTrue result → one ≡ other }
{
    matches!(
        (one, other),
        (Mode::FullSupervision, Mode::FullSupervision)
            | (Mode::OnSight, Mode::OnSight)
            | (Mode::StaffResponsible, Mode::StaffResponsible)
            | (Mode::Shunting, Mode::Shunting)
            | (Mode::Unfitted, Mode::Unfitted)
            | (Mode::StandBy, Mode::StandBy)
            | (Mode::Trip, Mode::Trip)
            | (Mode::PostTrip, Mode::PostTrip)
            | (Mode::SystemFailure, Mode::SystemFailure)
    )
}

fn is_same_level(one: Option<TrainLevel>, other: Option<TrainLevel>) -> bool
    ensures { IsTrue result → one ≡ other }
{
    matches!(
        (one, other),
        (None, None)
            | (Some(TrainLevel::Level0), Some(TrainLevel::Level0))
            | (Some(TrainLevel::Level1), Some(TrainLevel::Level1))
    )
}

fn is_same_brake(one: Brake, other: Brake) -> bool
    ensures { IsTrue result → one ≡ other }
{
    matches!(
        (one, other),
        (Brake::None, Brake::None)
            | (Brake::Service, Brake::Service)
            | (Brake::Emergency, Brake::Emergency)
    )
}

fn are_same_indications(one: &Indications, other: &Indications) -> bool
    ensures { IsTrue result → one.now ≡ other.now }
{
    one.on_sight == other.on_sight
        && one.shunting == other.shunting
        && one.level_0 == other.level_0
        && one.trip == other.trip
        && one.overridden == other.overridden
        && one.not_revalidated == other.not_revalidated
        && one.overspeed == other.overspeed
}

/// Whether two outputs are the same.
pub fn are_same(one: &Output, other: &Output) -> bool
    ensures { IsTrue result → one.now ≡ other.now }
{
    one.limit == other.limit
        && is_same_mode(one.mode, other.mode)
        && is_same_level(one.level, other.level)
        && is_same_brake(one.brake, other.brake)
        && are_same_indications(&one.indications, &other.indications)
}
