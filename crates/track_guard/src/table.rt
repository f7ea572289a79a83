//! The table of `specs/Table.antt`, column by column.
ghost use Rattle.std.specs.Prelude.{◌≡◌};
ghost use Rattle.mode_table.specs.Modes.{is_mode, is_one_of};
ghost use Rattle.track_guard.specs.Table.{level_order, moving, table, track_ahead};

use crate::finding::{Action, Finding, Section, Sureness};
use mode_table::Mode;

/// Whether the train may move in a mode under the driver's control.
fn may_move(mode: Mode) -> bool
    ensures { result ≡ is_one_of moving mode }
{
    match mode {
        Mode::FullSupervision
        | Mode::OnSight
        | Mode::StaffResponsible
        | Mode::Shunting
        | Mode::Unfitted => true,
        Mode::StandBy | Mode::Trip | Mode::PostTrip | Mode::SystemFailure => false,
    }
}

/// Whether this kernel uses what a telegram announces of the track ahead.
fn uses_track_ahead(mode: Mode) -> bool
    ensures { result ≡ is_one_of track_ahead mode }
{
    match mode {
        Mode::FullSupervision
        | Mode::OnSight
        | Mode::StaffResponsible
        | Mode::StandBy
        | Mode::Unfitted => true,
        Mode::Shunting | Mode::Trip | Mode::PostTrip | Mode::SystemFailure => false,
    }
}

/// Whether this kernel uses an order of a level.
fn uses_level_order(mode: Mode) -> bool
    ensures { result ≡ is_one_of level_order mode }
{
    match mode {
        Mode::FullSupervision
        | Mode::OnSight
        | Mode::StaffResponsible
        | Mode::StandBy
        | Mode::Unfitted
        | Mode::PostTrip => true,
        Mode::Shunting | Mode::Trip | Mode::SystemFailure => false,
    }
}

/// Whether the row of a finding is of this mode.
pub(crate) fn is_of_mode(finding: Finding, mode: Mode) -> bool
    ensures { result ≡ is_one_of (table finding).modes mode }
{
    match finding {
        Finding::StopInStaffResponsible => matches!(mode, Mode::StaffResponsible),
        Finding::DangerForShunting => matches!(mode, Mode::Shunting),
        Finding::StopShunting => matches!(mode, Mode::Shunting | Mode::StandBy),
        Finding::ConditionalLevel => uses_level_order(mode),
        Finding::Repositioning
        | Finding::AxleLoadSpeeds
        | Finding::RouteSuitability
        | Finding::SlipperyRail
        | Finding::EndlessEndSpeed => uses_track_ahead(mode),
        Finding::ShuntingBalises
        | Finding::GreaterVersion
        | Finding::SameVersion
        | Finding::LesserVersion
        | Finding::RefusedUnlinked
        | Finding::Refused => may_move(mode),
    }
}

/// Whether the row also counts while an override is active.
pub(crate) fn counts_overridden(finding: Finding) -> bool
    ensures { result ≡ (table finding).overridden }
{
    match finding {
        Finding::StopInStaffResponsible | Finding::DangerForShunting => false,
        Finding::ShuntingBalises
        | Finding::StopShunting
        | Finding::Repositioning
        | Finding::ConditionalLevel
        | Finding::AxleLoadSpeeds
        | Finding::RouteSuitability
        | Finding::SlipperyRail
        | Finding::EndlessEndSpeed
        | Finding::GreaterVersion
        | Finding::SameVersion
        | Finding::LesserVersion
        | Finding::RefusedUnlinked
        | Finding::Refused => true,
    }
}

/// What is demanded in the modes of the row.
pub(crate) fn action_of(finding: Finding) -> Action
    ensures { result ≡ (table finding).action }
{
    match finding {
        Finding::StopInStaffResponsible | Finding::DangerForShunting | Finding::GreaterVersion =>
            Action::Trip,
        Finding::RefusedUnlinked => Action::ServiceBrake,
        Finding::ShuntingBalises
        | Finding::StopShunting
        | Finding::Repositioning
        | Finding::ConditionalLevel
        | Finding::AxleLoadSpeeds
        | Finding::RouteSuitability
        | Finding::SlipperyRail
        | Finding::EndlessEndSpeed => Action::NotObeyed,
        Finding::SameVersion | Finding::LesserVersion | Finding::Refused => Action::Unreadable,
    }
}

/// What is demanded in the other modes.
pub(crate) fn action_elsewhere(finding: Finding) -> Option<Action>
    ensures { result ≡ (table finding).elsewhere }
{
    match finding {
        Finding::StopInStaffResponsible
        | Finding::DangerForShunting
        | Finding::ShuntingBalises
        | Finding::StopShunting
        | Finding::Repositioning
        | Finding::ConditionalLevel
        | Finding::AxleLoadSpeeds
        | Finding::RouteSuitability
        | Finding::SlipperyRail
        | Finding::EndlessEndSpeed => None,
        Finding::GreaterVersion
        | Finding::SameVersion
        | Finding::LesserVersion
        | Finding::RefusedUnlinked
        | Finding::Refused => Some(Action::Unreadable),
    }
}

/// A section by its three numbers.
const fn section(chapter: u8, section: u8, clause: u8) -> Section
    ensures { result ≡ record { chapter = chapter; section = section; clause = clause } }
{
    Section {
        chapter,
        section,
        clause,
    }
}

impl Finding {
    /// Where issue 2.3.0 says what the train does.
    pub fn section(self) -> Section
        ensures { result ≡ (table self).section }
    {
        match self {
            Finding::StopInStaffResponsible
            | Finding::DangerForShunting
            | Finding::ShuntingBalises
            | Finding::EndlessEndSpeed => section(4, 6, 3),
            Finding::StopShunting => section(5, 6, 0),
            Finding::Repositioning => section(3, 8, 5),
            Finding::ConditionalLevel => section(5, 10, 0),
            Finding::AxleLoadSpeeds => section(3, 11, 4),
            Finding::RouteSuitability => section(3, 12, 2),
            Finding::SlipperyRail => section(3, 18, 4),
            Finding::GreaterVersion | Finding::SameVersion | Finding::LesserVersion => section(
                3, 17, 0,
            ),
            Finding::RefusedUnlinked | Finding::Refused => section(3, 16, 2),
        }
    }

    /// How sure that is.
    pub fn sureness(self) -> Sureness
        ensures { result ≡ (table self).sureness }
    {
        match self {
            Finding::StopInStaffResponsible | Finding::DangerForShunting => Sureness::Sure,
            Finding::ShuntingBalises
            | Finding::Repositioning
            | Finding::ConditionalLevel
            | Finding::AxleLoadSpeeds
            | Finding::RouteSuitability
            | Finding::SlipperyRail
            | Finding::EndlessEndSpeed
            | Finding::SameVersion => Sureness::FairlySure,
            Finding::StopShunting
            | Finding::GreaterVersion
            | Finding::LesserVersion
            | Finding::RefusedUnlinked
            | Finding::Refused => Sureness::ToBeLookedUp,
        }
    }
}
