//! Why actions of the driver wouldn't be accepted, as C gets it.
ghost use Rattle.std.specs.Prelude.{◌≡◌, List};
ghost use Rattle.events.specs.declared.input.Event.{Event};
ghost use Rattle.kernel.specs.Lives.{life_of};
ghost use Rattle.unit_calls.specs.Inputs.{action_by};
ghost use Rattle.unit_calls.specs.Refusals.{refusal_number, reason, reasons, DescribesRefusals};
ghost use Rattle.unit_start.specs.Events.{Knows};

use crate::inputs::action_of;
use driver::ActionRefusal;
use kernel::State;

/// Why each action of the driver wouldn't be accepted as the next input: 0 of one that would, else 1 to 10.
#[repr(C)]
#[derive(Clone, Copy)]
pub struct EtcsUnitRefusals {
    /// Of each action without values, at the place of its number; 0 in the first place.
    pub actions: [u8; 16],
    /// Of an identity.
    pub identity: u8,
    /// Of a running number.
    pub running_number: u8,
    /// Of train data.
    pub train_data: u8,
}

// The number of a reason; 0 where there is none.
fn refusal_number(refusal: Option<ActionRefusal>) -> u8
    ensures { result ≡ refusal_number refusal }
{
    match refusal {
        None => 0,
        Some(ActionRefusal::OtherMode) => 1,
        Some(ActionRefusal::NotAtStandstill) => 2,
        Some(ActionRefusal::TooFast) => 3,
        Some(ActionRefusal::NothingToConfirm) => 4,
        Some(ActionRefusal::IdentityNotValid) => 5,
        Some(ActionRefusal::LevelNotValid) => 6,
        Some(ActionRefusal::TripOutstanding) => 7,
        Some(ActionRefusal::TrainDataNotValid) => 8,
        Some(ActionRefusal::NoTrip) => 9,
        Some(ActionRefusal::NotRequested) => 10,
    }
}

// Why the action of this number wouldn't be accepted; 0 where there is none.
fn reason(state: &State, number: u32) -> u8
    ensures { (events : List Event) → Knows state.now events → result ≡ reason (life_of events) (action_by number) }
{
    match action_of(number) {
        Some(action) => refusal_number(state.refusal(&action)),
        None => 0,
    }
}

// That of each action without values, at the place of its number.
fn reasons(state: &State) -> [u8; 16]
    ensures { (events : List Event) → Knows state.now events → result ≡ reasons (life_of events) }
{
    [
        reason(state, 0),
        reason(state, 1),
        reason(state, 2),
        reason(state, 3),
        reason(state, 4),
        reason(state, 5),
        reason(state, 6),
        reason(state, 7),
        reason(state, 8),
        reason(state, 9),
        reason(state, 10),
        reason(state, 11),
        reason(state, 12),
        reason(state, 13),
        reason(state, 14),
        reason(state, 15),
    ]
}

/// Why each action wouldn't be accepted after the events that a state represents.
pub fn refusals_reported(state: &State) -> EtcsUnitRefusals
    ensures { (events : List Event) → Knows state.now events → DescribesRefusals events result }
{
    // An entry is refused as the choice of a level is, whatever is entered.
    let entry = reason(state, 1);
    EtcsUnitRefusals {
        actions: reasons(state),
        identity: entry,
        running_number: entry,
        train_data: entry,
    }
}
