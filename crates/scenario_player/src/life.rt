//! One life on a journal in memory.
ghost use Rattle.std.specs.Prelude.{◌≡◌, ℕ, ◌≤◌, List, IfOk};
ghost use Rattle.blocks.specs.FirstSector.{least_slots, most_slots};
ghost use Rattle.disk.specs.Memory.{memory_state};
ghost use Rattle.events.specs.declared.input.Event.{Event};
ghost use Rattle.unit_start.specs.Lives.{IsReady};
ghost use Rattle.scenario_player.specs.Playing.{is_refusal, is_played, IsEmpty, IsPlayed, IsPlayedAfter};

use crate::image::{calls_of, empty_journal};
use disk::Memory;
use events::Step;
use mode_table::Cold;
use onboard::{AcceptError, FlushError, Released};
use std::alloc::Global;
use units::NoMemory;
use whole_lives::{LiveError, live};

/// A life that was played.
#[derive(Drop)]
pub struct Played {
    /// Whether it came to its end, else the step that was refused, and why.
    pub ended: Result<(), LiveError>,
    /// The outputs, the oldest first.
    pub released: Vec<Released>,
    /// The disk that it handed back.
    pub disk: Memory,
}

fn is_refusal(error: LiveError) -> bool
    ensures { result ≡ is_refusal error }
{
    match error {
        LiveError::Open(_) | LiveError::NoMemory(_) => false,
        LiveError::Accept(_, error) => !matches!(error, AcceptError::NoMemory),
        LiveError::Flush(_, error) => !matches!(error, FlushError::DeviceFault),
    }
}

// Whether a life came to its end, or to a step that was refused for a cause of its own.
fn is_played(ended: &Result<(), LiveError>) -> bool
    ensures { result ≡ is_played ended.now }
{
    match ended {
        Ok(()) => true,
        Err(error) => is_refusal(*error),
    }
}

/// Plays the life of these steps on a disk. `cold` says whether the train moved without power. NoMemory where memory is
/// refused for the journal, for an event or for an output. A life that stopped for a cause of its own is played.
pub(crate) fn play_life(
    alloc: Global,
    disk: Memory,
    cold: Cold,
    steps: &[Step],
) -> Result<Played, NoMemory>
    ensures sectors { IfOk result (λ played. (memory_state played.disk).sectors ≡ (memory_state disk).sectors) }

    // The first life, on an empty journal.
    ensures first { (slots : ℕ) → least_slots ≤ slots → IsEmpty slots (memory_state disk) →
        IfOk result (λ played. IsPlayed slots cold steps.now played.ended played.released.items
        (memory_state played.disk)) }

    // A life on the journal that earlier ones left.
    ensures after { (durable accepted : List Event) → IsReady 0 durable accepted (memory_state disk) →
        IfOk result (λ played. IsPlayedAfter durable accepted cold steps.now played.ended played.released.items
        (memory_state disk) (memory_state played.disk)) }
{
    let mut released = Vec::new(alloc);
    let (disk, ended) = live(alloc, disk, cold, steps, &mut released);
    if !is_played(&ended) {
        return Err(NoMemory);
    }
    Ok(Played {
        ended,
        released,
        disk,
    })
}

/// Plays the life of these steps on an empty journal of so many slots, in memory, with capacity for so many calls of later
/// lives. NoMemory where memory is refused. A life that stopped for a cause of its own is played. The caller owes a number
/// of slots that a journal has.
pub fn play_first(
    alloc: Global,
    slots: u32,
    cold: Cold,
    steps: &[Step],
    later_calls: u64,
) -> Result<Played, NoMemory>
    requires slots { (least_slots ≤ slots) × (slots ≤ most_slots) }
    ensures { IfOk result (λ played. IsPlayed slots cold steps.now played.ended played.released.items
        (memory_state played.disk)) }
{
    let calls = calls_of(slots, steps).saturating_add(later_calls);
    let disk = empty_journal(alloc, slots, calls)?;
    play_life(alloc, disk, cold, steps)
}
