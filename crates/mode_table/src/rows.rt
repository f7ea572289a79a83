//! The rows of the mode table, mode by mode (SUBSET-026, 4.6).
ghost use Rattle.std.specs.Prelude.{◌≡◌};
ghost use Rattle.mode_table.specs.Rows.{next_mode};
ghost use Rattle.mode_table.specs.declared.mode.Mode.TheVariants as mode;

use crate::{Conditions, Mode};

/// The mode that an event leads to (SUBSET-026, 4.6; the rows: this project's profile): that of the first row of the
/// mode table that starts from the old mode and whose condition holds; the old mode where there is none. Takes no
/// memory.
pub fn next_mode(mode: Mode, conditions: &Conditions) -> Mode
    ensures { result ≡ next_mode mode conditions.now }
{
    match mode {
        Mode::FullSupervision => from_full_supervision(conditions),
        Mode::OnSight => from_on_sight(conditions),
        Mode::StaffResponsible => from_staff_responsible(conditions),
        Mode::Shunting => from_shunting(conditions),
        Mode::Unfitted => from_unfitted(conditions),
        Mode::StandBy => from_stand_by(conditions),
        Mode::Trip => from_trip(conditions),
        Mode::PostTrip => from_post_trip(conditions),
        Mode::SystemFailure => Mode::SystemFailure,
    }
}

fn from_full_supervision(conditions: &Conditions) -> Mode
    ensures { result ≡ next_mode mode.FullSupervision conditions.now }
{
    if conditions.overrun {
        Mode::SystemFailure
    } else if conditions.desk_closed {
        Mode::StandBy
    } else if conditions.trip {
        Mode::Trip
    } else if conditions.shunting_chosen {
        Mode::Shunting
    } else if conditions.override_accepted {
        Mode::StaffResponsible
    } else if conditions.level_0 {
        Mode::Unfitted
    } else if conditions.shunting_area {
        Mode::Shunting
    } else if conditions.on_sight_area {
        Mode::OnSight
    } else {
        Mode::FullSupervision
    }
}

fn from_on_sight(conditions: &Conditions) -> Mode
    ensures { result ≡ next_mode mode.OnSight conditions.now }
{
    if conditions.overrun {
        Mode::SystemFailure
    } else if conditions.desk_closed {
        Mode::StandBy
    } else if conditions.trip {
        Mode::Trip
    } else if conditions.shunting_chosen {
        Mode::Shunting
    } else if conditions.override_accepted {
        Mode::StaffResponsible
    } else if conditions.level_0 {
        Mode::Unfitted
    } else if conditions.shunting_area {
        Mode::Shunting
    } else if conditions.full && !conditions.on_sight_area {
        Mode::FullSupervision
    } else {
        Mode::OnSight
    }
}

fn from_staff_responsible(conditions: &Conditions) -> Mode
    ensures { result ≡ next_mode mode.StaffResponsible conditions.now }
{
    if conditions.overrun {
        Mode::SystemFailure
    } else if conditions.desk_closed {
        Mode::StandBy
    } else if conditions.trip {
        Mode::Trip
    } else if conditions.beyond_staff_distance {
        Mode::Trip
    } else if conditions.shunting_chosen {
        Mode::Shunting
    } else if conditions.level_0 {
        Mode::Unfitted
    } else if conditions.full && conditions.on_sight_area {
        Mode::OnSight
    } else if conditions.full {
        Mode::FullSupervision
    } else {
        Mode::StaffResponsible
    }
}

fn from_shunting(conditions: &Conditions) -> Mode
    ensures { result ≡ next_mode mode.Shunting conditions.now }
{
    if conditions.overrun {
        Mode::SystemFailure
    } else if conditions.desk_closed {
        Mode::StandBy
    } else if conditions.shunting_left {
        Mode::StandBy
    } else {
        Mode::Shunting
    }
}

fn from_unfitted(conditions: &Conditions) -> Mode
    ensures { result ≡ next_mode mode.Unfitted conditions.now }
{
    if conditions.overrun {
        Mode::SystemFailure
    } else if conditions.desk_closed {
        Mode::StandBy
    } else if conditions.level_1 && conditions.full && conditions.on_sight_area {
        Mode::OnSight
    } else if conditions.level_1 && conditions.full {
        Mode::FullSupervision
    } else if conditions.level_1 {
        Mode::Trip
    } else if conditions.shunting_chosen {
        Mode::Shunting
    } else {
        Mode::Unfitted
    }
}

fn from_stand_by(conditions: &Conditions) -> Mode
    ensures { result ≡ next_mode mode.StandBy conditions.now }
{
    if conditions.overrun {
        Mode::SystemFailure
    } else if conditions.shunting_chosen {
        Mode::Shunting
    } else if conditions.started && conditions.level_1 && conditions.full {
        Mode::FullSupervision
    } else if conditions.started && conditions.level_1 {
        Mode::StaffResponsible
    } else if conditions.started && conditions.level_0 {
        Mode::Unfitted
    } else {
        Mode::StandBy
    }
}

fn from_trip(conditions: &Conditions) -> Mode
    ensures { result ≡ next_mode mode.Trip conditions.now }
{
    if conditions.overrun {
        Mode::SystemFailure
    } else if conditions.trip_acknowledged {
        Mode::PostTrip
    } else {
        Mode::Trip
    }
}

fn from_post_trip(conditions: &Conditions) -> Mode
    ensures { result ≡ next_mode mode.PostTrip conditions.now }
{
    if conditions.overrun {
        Mode::SystemFailure
    } else if conditions.desk_closed {
        Mode::StandBy
    } else if conditions.override_accepted {
        Mode::StaffResponsible
    } else if conditions.shunting_chosen {
        Mode::Shunting
    } else if conditions.started && conditions.level_1 {
        Mode::StaffResponsible
    } else if conditions.started && conditions.level_0 {
        Mode::Unfitted
    } else {
        Mode::PostTrip
    }
}
