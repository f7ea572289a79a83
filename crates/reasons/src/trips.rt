//! The trip that is owed, and why it was entered.
ghost use Rattle.std.specs.Prelude.{◌≡◌};
ghost use Rattle.reasons.specs.Runs.{in_this_life};
ghost use Rattle.reasons.specs.Trips.{trip_held};
ghost use Rattle.reasons.specs.TripTexts.{trip_name_of, trip_sentence_of, trip_section_of};

use events::Event;
use kernel::TripCause;

/// A trip that is owed: by which event of this life it was entered, and why (SUBSET-026, 4.6, 5.11).
#[derive(Clone, Copy)]
pub struct TripReport {
    /// The number of the event, from 0 on, over all lives.
    pub event: u64,
    /// Why.
    pub cause: TripCause,
}

/// What an event leaves of the trip before it: nothing where it begins a life.
pub(crate) fn trip_before(event: &Event, before: Option<TripReport>) -> Option<TripReport>
    ensures { result ≡ in_this_life event.now before }
{
    match event {
        Event::PowerUp(_) => None,
        Event::Input(_) => before,
    }
}

/// The trip after an event of this number, which entered Trip for this cause, or didn't.
pub(crate) fn trip_held(
    owes: bool,
    entered: Option<TripCause>,
    before: Option<TripReport>,
    number: u64,
) -> Option<TripReport>
    ensures { result ≡ trip_held owes entered before number }
{
    match entered {
        Some(cause) => Some(TripReport {
            event: number,
            cause,
        }),
        None if owes => before,
        None => None,
    }
}

/// The name of a cause in JSON.
pub fn trip_name(cause: TripCause) -> &'static str
    ensures { result.now ≡ trip_name_of cause }
{
    match cause {
        TripCause::EndPassed => "end_passed",
        TripCause::Linking => "linking",
        TripCause::Stop => "stop",
        TripCause::StaffDistance => "staff_distance",
        TripCause::Level => "level",
    }
}

/// What it says.
pub fn trip_sentence(cause: TripCause) -> &'static str
    ensures { result.now ≡ trip_sentence_of cause }
{
    match cause {
        TripCause::EndPassed => "the minimum safe front was past the end of authority",
        TripCause::Linking => "linking or a balise group asked for it",
        TripCause::Stop => "an authority with V_MAIN 0 was used",
        TripCause::StaffDistance => "the path in Staff Responsible was above D_NVSTFF",
        TripCause::Level => "the level was 1, and the authority or the track ahead was not known",
    }
}

/// The sections of SUBSET-026 that it is from.
pub fn trip_section(cause: TripCause) -> &'static str
    ensures { result.now ≡ trip_section_of cause }
{
    match cause {
        TripCause::EndPassed => "4.6.3",
        TripCause::Linking => "3.4.4, 3.16.2",
        TripCause::Stop => "3.11.6",
        TripCause::StaffDistance => "4.4",
        TripCause::Level => "5.10",
    }
}
