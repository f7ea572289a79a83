//! What a format says about a record, and of what is kept.
ghost use Rattle.std.specs.Prelude.{◌≡◌};
ghost use Rattle.driver.specs.Data.{invalidated};
ghost use Rattle.blocks.specs.Blocks.{event_reported, situation_reported, record_reported, kept_reported};

use blocks::{BlockRecord, Format, Record, Situation};
use driver::Datum;
use events::{Event, Kept};
use mode_table::Cold;

// Where the train was and how fast it might run.
fn situation_in(format: Format, record_of: &Record) -> Option<Situation>
    ensures { result ≡ situation_reported format record_of.now }
{
    match format {
        Format::One => None,
        Format::Two | Format::Three => Some(Situation {
            estimate: record_of.estimate,
            uncertainty: record_of.uncertainty,
            limit: record_of.output.limit,
        }),
    }
}

fn event_in(format: Format, event: Event) -> Event
    ensures { result ≡ event_reported format event }
{
    match (format, event) {
        (Format::One | Format::Two, Event::PowerUp(_)) => Event::PowerUp(Cold::Unknown),
        (Format::Three, Event::PowerUp(cold)) => Event::PowerUp(cold),
        (_, Event::Input(input)) => Event::Input(input),
    }
}

/// A record, as a format says it.
pub(crate) fn reported_in(format: Format, whole: Record) -> BlockRecord
    ensures { result ≡ record_reported format whole }
{
    let situation = situation_in(format, &whole);
    let Record {
        number,
        event,
        moment,
        output,
        estimate: _,
        uncertainty: _,
    } = whole;
    BlockRecord {
        number,
        event: event_in(format, event),
        moment,
        mode: output.mode,
        level: output.level,
        brake: output.brake,
        indications: output.indications,
        situation,
    }
}

// What was valid, reported invalid.
fn reported_invalid<T: Copy>(datum: Datum<T>) -> Datum<T>
    ensures { result ≡ invalidated datum }
{
    match datum {
        Datum::Unknown => Datum::Unknown,
        Datum::Valid(value) | Datum::Invalid(value) => Datum::Invalid(value),
    }
}

/// What is kept, as a format says it.
pub(crate) fn kept_in(format: Format, kept: Kept) -> Kept
    ensures { result ≡ kept_reported format kept }
{
    let mut kept = kept;
    match format {
        Format::One | Format::Two => {
            kept.level = reported_invalid(kept.level);
            kept.position = reported_invalid(kept.position);
        }
        Format::Three => {}
    }
    kept
}
