//! What a block says about an event, along with what the kernel answers to it.
ghost use Rattle.std.specs.Prelude.{◌≡◌, ◌↔◌, IsTrue, MatchOption};
ghost use Rattle.blocks.specs.Blocks.{event_reported};
ghost use Rattle.replaying.specs.Comparing.{DiffersIn, SituationDiffers};

use crate::differences::RecordField;
use blocks::{BlockRecord, Format, Situation};
use events::{Brake, Event, Indications};
use mode_table::{Cold, Mode, TrainLevel};

fn same_mode(one: Mode, other: Mode) -> bool
    ensures { IsTrue result ↔ one ≡ other }
{
    one.number() == other.number()
}

fn same_level(one: Option<TrainLevel>, other: Option<TrainLevel>) -> bool
    ensures { IsTrue result ↔ one ≡ other }
{
    match (one, other) {
        (None, None) => true,
        (Some(TrainLevel::Level0), Some(TrainLevel::Level0)) => true,
        (Some(TrainLevel::Level1), Some(TrainLevel::Level1)) => true,
        _ => false,
    }
}

fn same_brake(one: Brake, other: Brake) -> bool
    ensures { IsTrue result ↔ one ≡ other }
{
    match (one, other) {
        (Brake::None, Brake::None) => true,
        (Brake::Service, Brake::Service) => true,
        (Brake::Emergency, Brake::Emergency) => true,
        _ => false,
    }
}

fn same_indications(one: &Indications, other: &Indications) -> bool
    ensures { IsTrue result ↔ one.now ≡ other.now }
{
    one.number() == other.number()
}

fn situation_differs(one: Option<Situation>, other: Option<Situation>) -> Option<RecordField>
    ensures { MatchOption result (one ≡ other) (λ field. SituationDiffers field one other) }
{
    match (one, other) {
        (None, None) => None,
        (Some(one), Some(other)) => {
            if one.estimate.get() != other.estimate.get() {
                return Some(RecordField::Estimate);
            }
            if one.uncertainty != other.uncertainty {
                return Some(RecordField::Uncertainty);
            }
            if one.limit.get() != other.limit.get() {
                return Some(RecordField::Limit);
            }
            None
        }
        _ => Some(RecordField::Situation),
    }
}

// Whether a format says the event as it is.
fn is_reported(format: Format, event: &Event) -> bool
    ensures { IsTrue result ↔ event.now ≡ event_reported format event.now }
{
    match (format, event) {
        (Format::One | Format::Two, Event::PowerUp(Cold::Moved | Cold::NotMoved)) => false,
        _ => true,
    }
}

/// The first field in which a record differs from what its format says about the kernel's answer to the same event;
/// None exactly where it is that. The caller owes the same event.
pub(crate) fn differs(
    format: Format,
    reported: &BlockRecord,
    answer: &BlockRecord,
) -> Option<RecordField>
    requires { answer.now.event ≡ event_reported format reported.now.event }
    ensures { MatchOption result (reported.now ≡ answer.now) (λ field. DiffersIn field reported.now answer.now) }
{
    if reported.number != answer.number {
        return Some(RecordField::Number);
    }
    if !is_reported(format, &reported.event) {
        return Some(RecordField::ColdMovement);
    }
    if reported.moment != answer.moment {
        return Some(RecordField::Moment);
    }
    if !same_mode(reported.mode, answer.mode) {
        return Some(RecordField::Mode);
    }
    if !same_level(reported.level, answer.level) {
        return Some(RecordField::Level);
    }
    if !same_brake(reported.brake, answer.brake) {
        return Some(RecordField::Brake);
    }
    if !same_indications(&reported.indications, &answer.indications) {
        return Some(RecordField::Indications);
    }
    situation_differs(reported.situation, answer.situation)
}
