//! Scenarios that are played.
ghost use Rattle.std.specs.Prelude.{◌≡◌, ℕ, ◌≤◌, List, true, false, IfOk, IfErr, Err};
ghost use Rattle.blocks.specs.FirstSector.{least_slots, most_slots};
ghost use Rattle.disk.specs.Memory.{memory_state};
ghost use Rattle.events.specs.declared.input.Event.{Event};
ghost use Rattle.serde_json.specs.View.{view};
ghost use Rattle.unit_start.specs.Lives.{IsReady};
ghost use Rattle.scenario_player.specs.Calls.{AreCallsFor};
ghost use Rattle.scenario_player.specs.Playing.{cold_by, PlaysOne, PlaysAfter};
ghost use Rattle.scenario_player.specs.Refusals.{HasNoJournal, IsCause, IsCauseAfter};

use crate::error::{PlayError, error_of};
use crate::image::calls_of;
use crate::life::{Played, play_first, play_life};
use blocks::{LEAST_SLOTS, MOST_SLOTS};
use disk::Memory;
use mode_table::Cold;
use serde_json::Value;
use simulator::life_of;
use std::alloc::Global;

// Whether a journal has so many slots.
fn has_journal(slots: u32) -> bool
    ensures has { result ≡ true → (least_slots ≤ slots) × (slots ≤ most_slots) }
    ensures none { result ≡ false → HasNoJournal slots }
{
    LEAST_SLOTS <= slots && slots <= MOST_SLOTS
}

fn cold_by(given: Option<Cold>, own_cold: Cold) -> Cold
    ensures { result ≡ cold_by given own_cold }
{
    match given {
        Some(cold) => cold,
        None => own_cold,
    }
}

/// Plays a scenario on an empty journal of so many slots, in memory, with capacity for so many calls of later lives
/// (`calls_for`). What the train knows of movements without power is what is given here, else what the scenario says.
/// The errors come in this order: BadSlots, the first fault of the scenario; NoMemory may come in the place of a fault,
/// and where a life was not played for want of memory.
pub fn play(
    alloc: Global,
    scenario: &Value,
    given: Option<Cold>,
    slots: u32,
    later_calls: u64,
) -> Result<Played, PlayError>
    // The life of the scenario was played, and what is answered is all that `live` answers on that journal.
    ensures ok { IfOk result (λ outcome. PlaysOne (view scenario.now) given slots outcome.ended
        outcome.released.items (memory_state outcome.disk)) }
    ensures err { IfErr result (IsCause (view scenario.now) slots) }
    ensures slots { HasNoJournal slots → result ≡ Err PlayError.BadSlots }
{
    if !has_journal(slots) {
        return Err(PlayError::BadSlots);
    }
    match life_of(alloc, scenario) {
        Ok((own_cold, steps)) => match play_first(
            alloc,
            slots,
            cold_by(given, own_cold),
            steps.as_slice(),
            later_calls,
        ) {
            Ok(played) => Ok(played),
            Err(_) => Err(PlayError::NoMemory),
        },
        Err(fault) => Err(error_of(fault)),
    }
}

/// Plays a scenario on the disk that an earlier life left. What the train knows of movements without power is what is
/// given here, else what the scenario says. NoMemory may come in the place of a fault, and where a life was not played
/// for want of memory.
pub fn play_after(
    alloc: Global,
    disk: Memory,
    scenario: &Value,
    given: Option<Cold>,
) -> Result<Played, PlayError>
    ensures ok { (durable accepted : List Event) → IsReady 0 durable accepted (memory_state disk) →
        IfOk result (λ outcome. PlaysAfter durable accepted (view scenario.now) given outcome.ended
        outcome.released.items (memory_state disk) (memory_state outcome.disk)) }
    ensures err { IfErr result (IsCauseAfter (view scenario.now)) }
{
    match life_of(alloc, scenario) {
        Ok((own_cold, steps)) => {
            match play_life(alloc, disk, cold_by(given, own_cold), steps.as_slice()) {
                Ok(played) => Ok(played),
                Err(_) => Err(PlayError::NoMemory),
            }
        }
        Err(fault) => Err(error_of(fault)),
    }
}

/// At least as many calls of the device as a life of this scenario makes on a journal of so many slots; else the first
/// fault of the scenario, in the place of which NoMemory may come.
pub fn calls_for(alloc: Global, scenario: &Value, slots: u32) -> Result<u64, PlayError>
    ensures calls { IfOk result (AreCallsFor (view scenario.now) slots) }
    ensures err { IfErr result (IsCauseAfter (view scenario.now)) }
{
    match life_of(alloc, scenario) {
        Ok((_, steps)) => Ok(calls_of(slots, steps.as_slice())),
        Err(fault) => Err(error_of(fault)),
    }
}
