//! A life that is run again, step after step of a walk.
ghost use Rattle.std.specs.Prelude.{◌≡◌, Option, OnOk};
ghost use Rattle.image_calls.specs.Lived.{Lived, one_more, powered_up, initial, Stands};

use events::{Event, Kept};
use lives::Unknown;
use reasons::Reasoning;
use std::alloc::Global;
use units::NoMemory;

/// Runs one event more, where the life is known.
pub(crate) fn follow(
    alloc: Global,
    known: &mut Option<Reasoning>,
    event: &Event,
) -> Result<(), NoMemory>
    ensures { OnOk result ((at : Option Lived) → Stands at known.old → Stands (one_more event.now at) known.new) }
{
    let Some(life) = known else {
        return Ok(());
    };
    life.follow(alloc, event)?;
    Ok(())
}

// Runs the power-up of a life, after what was kept before it.
fn power_up(
    alloc: Global,
    known: &mut Option<Reasoning>,
    kept: &Kept,
    event: &Event,
) -> Result<(), NoMemory>
    ensures { OnOk result ((at : Option Lived) → Stands at known.old
        → Stands (powered_up event.now kept.now at) known.new) }
{
    match event {
        Event::PowerUp(cold) => {
            let (life, _) = Reasoning::begin(alloc, kept, *cold);
            *known = Some(life);
            Ok(())
        }
        Event::Input(_) => follow(alloc, known, event),
    }
}

/// Runs the power-up of a life, if it is known what was kept before it, or the life before within its block is.
pub(crate) fn begin(
    alloc: Global,
    known: &mut Option<Reasoning>,
    before: &Result<Kept, Unknown>,
    event: &Event,
) -> Result<(), NoMemory>
    ensures { OnOk result ((at : Option Lived) → Stands at known.old
        → Stands (initial before.now event.now at) known.new) }
{
    match before {
        Ok(kept) => power_up(alloc, known, kept, event),
        Err(Unknown::WithinBlock) => follow(alloc, known, event),
        Err(Unknown::BeforeOldest | Unknown::Gap) => {
            *known = None;
            Ok(())
        }
    }
}
