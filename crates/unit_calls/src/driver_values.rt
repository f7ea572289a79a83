//! What the driver entered, and which actions of the driver would be accepted, as C gets it.
ghost use Rattle.std.specs.Prelude.{◌≡◌, List};
ghost use Rattle.c_numbers.specs.Numbers.{flag_of};
ghost use Rattle.driver.specs.Revalidating.{is_whole};
ghost use Rattle.events.specs.declared.input.Event.{Event};
ghost use Rattle.kernel.specs.Lives.{life_of};
ghost use Rattle.mode_control.specs.Life.{driver_of};
ghost use Rattle.unit_calls.specs.Drivers.{acceptance, acceptances, DescribesDriver};
ghost use Rattle.unit_calls.specs.Inputs.{action_by};
ghost use Rattle.unit_start.specs.Events.{Knows};

use crate::inputs::action_of;
use c_numbers::{EtcsKept, kept_reported, status_number};
use kernel::State;

/// What the driver entered, and which actions of the driver would be accepted as the next event.
#[repr(C)]
#[derive(Clone, Copy)]
pub struct EtcsUnitDriver {
    /// What a power-up would find.
    pub kept: EtcsKept,
    /// The speed of the last reading, in metres per hour.
    pub speed: u32,
    /// M_MODE (SUBSET-026, 7.5.1).
    pub mode: u8,
    /// 1 of each action without values that would be accepted, at the place of its number; 0 in the first place.
    pub accepts: [u8; 16],
    /// 1 where an identity would be accepted.
    pub accepts_identity: u8,
    /// 1 where a running number would be accepted.
    pub accepts_running_number: u8,
    /// 1 where train data would be accepted.
    pub accepts_train_data: u8,
    /// 1 where the driver has revalidated since the power-up.
    pub is_revalidated: u8,
    /// The status of the identity: 0 unknown, 1 valid, 2 invalid.
    pub identity_status: u8,
    /// The status of the running number.
    pub running_number_status: u8,
    /// The status of the train data.
    pub train_status: u8,
    /// 1 where the driver gave or confirmed the identity since the power-up.
    pub gave_identity: u8,
    /// 1 where the driver gave or confirmed the level, or it stayed valid.
    pub gave_level: u8,
    /// 1 where the driver gave or confirmed the train data.
    pub gave_train: u8,
    /// 1 where the driver started after that, or chose Shunting.
    pub has_left: u8,
}

// Whether the action of this number would be accepted; 0 where there is none.
fn acceptance(state: &State, number: u32) -> u8
    ensures { (events : List Event) → Knows state.now events → result ≡ acceptance (life_of events) (action_by number) }
{
    match action_of(number) {
        Some(action) => u8::from(state.accepts(&action)),
        None => 0,
    }
}

// That of each action without values, at the place of its number.
fn acceptances(state: &State) -> [u8; 16]
    ensures { (events : List Event) → Knows state.now events → result ≡ acceptances (life_of events) }
{
    [
        acceptance(state, 0),
        acceptance(state, 1),
        acceptance(state, 2),
        acceptance(state, 3),
        acceptance(state, 4),
        acceptance(state, 5),
        acceptance(state, 6),
        acceptance(state, 7),
        acceptance(state, 8),
        acceptance(state, 9),
        acceptance(state, 10),
        acceptance(state, 11),
        acceptance(state, 12),
        acceptance(state, 13),
        acceptance(state, 14),
        acceptance(state, 15),
    ]
}

// 1 where it is so.
fn flag(is_so: bool) -> u8
    ensures { result ≡ flag_of is_so }
{
    u8::from(is_so)
}

/// What the driver entered, and which actions would be accepted, after the events that a state represents.
pub fn driver_reported(state: &State) -> EtcsUnitDriver
    ensures { (events : List Event) → Knows state.now events → DescribesDriver events result }
{
    // An entry is accepted where the choice of a level is, whatever is entered.
    let accepts_entry = acceptance(state, 1);
    let driver = state.driver();
    let entered = driver.kept();
    let given = driver.revalidation();
    EtcsUnitDriver {
        kept: kept_reported(&state.kept()),
        speed: state.motion().speed.get(),
        mode: state.output().mode.number(),
        accepts: acceptances(state),
        accepts_identity: accepts_entry,
        accepts_running_number: accepts_entry,
        accepts_train_data: accepts_entry,
        is_revalidated: flag(given.is_whole()),
        identity_status: status_number(&entered.identity),
        running_number_status: status_number(&entered.running_number),
        train_status: status_number(&entered.train_data),
        gave_identity: flag(given.identity),
        gave_level: flag(given.level),
        gave_train: flag(given.train_data),
        has_left: flag(given.shunting || given.started),
    }
}
