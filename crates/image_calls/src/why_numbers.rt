//! The numbers by which C gets why.
ghost use Rattle.std.specs.Prelude.{◌≡◌};
ghost use Rattle.image_calls.specs.WhyNumbers.{since_of, holds_of, trip_number, trip_cause_reported, trip_event_reported};

use c_numbers::{flag, or_zero};
use kernel::{BrakeCause, TripCause};
use reasons::{Runs, TripReport};

/// From which event on each cause of the brake has held.
pub(crate) fn since_of(runs: &Runs) -> [u64; 10]
    ensures { result ≡ since_of runs.now }
{
    BrakeCause::ALL.map(|cause| or_zero(runs.first(cause)))
}

/// Whether each holds.
pub(crate) fn holds_of(runs: &Runs) -> [u8; 10]
    ensures { result ≡ holds_of runs.now }
{
    BrakeCause::ALL.map(|cause| flag(runs.first(cause)))
}

fn trip_number(cause: TripCause) -> u8
    ensures { result ≡ trip_number cause }
{
    cause as u8 + 1
}

/// Why Trip was entered, 0 where it isn't known that one is owed.
pub(crate) fn trip_cause_reported(trip: Option<TripReport>) -> u8
    ensures { result ≡ trip_cause_reported trip }
{
    match trip {
        None => 0,
        Some(reported) => trip_number(reported.cause),
    }
}

/// By which event, likewise.
pub(crate) fn trip_event_reported(trip: Option<TripReport>) -> u64
    ensures { result ≡ trip_event_reported trip }
{
    match trip {
        None => 0,
        Some(reported) => reported.event,
    }
}
