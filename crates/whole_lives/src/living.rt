//! Whole lives.
ghost use Rattle.std.specs.Prelude.{◌≡◌, ◌≢◌, ℕ, false, ◌-◌, ◌<◌, ◌∷◌, List, Err, IsTrue, IfErr, vec_len, vec_capacity};
ghost use Rattle.disk.specs.State.{now, contents_of, Counted, IsImage, AtEachMoment};
ghost use Rattle.events.specs.Limits.{most_pending};
ghost use Rattle.events.specs.declared.input.Event.{Event};
ghost use Rattle.events.specs.declared.input.Event.TheVariants.{PowerUp};
ghost use Rattle.mode_table.specs.declared.statuses.Cold.{Cold};
ghost use Rattle.whole_lives.specs.Answers.{live_failed, is_full};
ghost use Rattle.unit_start.specs.Answers.{is_device, wants_memory};
ghost use Rattle.unit_start.specs.Lives.{IsReady, HasNoCause};
ghost use Rattle.whole_lives.specs.Runs.{IsOfLife, Lives};
ghost use Rattle.whole_lives.specs.Stops.{LifeEnds, OnlyOpens, IsDone, IsUnflushed};
ghost use Rattle.whole_lives.specs.Written.{LeavesLast};
ghost use Rattle.onboard.specs.declared.released.Released.{Released};

use crate::errors::LiveError;
use crate::steps::run;
use disk::Disk;
use events::Step;
use mode_table::Cold;
use onboard::{Onboard, OpenError, Released};
use std::alloc::Global;

/// One life (this project's profile): powers up on the disk, and takes the steps in order, up to the first error, whose
/// step it names. What is released goes to the end of the list, also where an error follows. It hands the disk back.
/// `cold` says whether the train moved without power; the caller owes that "not moved" is true.
pub fn live<D: Disk>(
    alloc: Global,
    disk: D,
    cold: Cold,
    steps: &[Step],
    out: &mut Vec<Released>,
) -> (D, Result<(), LiveError>)
    ensures counted { Counted (live_failed result.1) (D.state disk) (D.state result.0) }

    // NoMemory comes only where the list has no space for what a flush may release.
    ensures full { IfErr result.1 (λ e. IsTrue (is_full e) → vec_capacity out.new - vec_len out.new < most_pending) }

    // Whatever the disk does, an opening that is refused releases nothing, and takes no memory.
    ensures unopened { (e : OpenError) → result.1 ≡ Err (LiveError.Open e) →
        (out.new ≡ out.old) × (wants_memory e ≡ false) }

    // Where no call failed, it leaves the images that the first sync settled.
    ensures nothing_added { IsTrue (D.state disk).honest → (e : OpenError) → result.1 ≡ Err (LiveError.Open e) →
        is_device e ≡ false →
        AtEachMoment (D.state disk) (D.state result.0) (IsImage (now (D.state disk))) }

    // Where it was opened, no refusal had a cause but the device.
    ensures no_cause { IsTrue (D.state disk).honest → ((e : OpenError) → result.1 ≢ Err (LiveError.Open e)) →
        HasNoCause (D.state disk).sectors (contents_of (D.state disk)) }

    // The error names the first step that isn't carried out, or the opening, and its cause.
    ensures stopped { LifeEnds (D.state disk) steps.now result.1 }

    // Where power is lost and what is released, for every list of events that the disk represents.
    ensures life { (whole_from : ℕ) (durable accepted : List Event) → IsTrue (D.state disk).honest →
        IsReady whole_from durable accepted (D.state disk) →
        (found : List Event) × (power_up_cold : Cold)
        × (lived : Lives whole_from durable accepted found cold power_up_cold steps.now (D.state disk) (D.state result.0)
        out.old.items out.new.items)
        × IsDone (PowerUp power_up_cold ∷ found) steps.now
        (OnlyOpens whole_from durable accepted found power_up_cold (D.state disk) (D.state result.0))
        result.1 lived.steps_taken lived.durable_at_end lived.accepted_at_end lived.released
        × IsUnflushed whole_from
        (IsOfLife whole_from (D.state disk).sectors durable accepted found power_up_cold) steps.now result.1
        lived.durable_at_end (D.state disk) (D.state result.0)
        × LeavesLast found power_up_cold steps.now result.1 (D.state result.0) }
{
    match Onboard::open(alloc, disk, cold) {
        Ok(unit) => {
            let mut unit = unit;
            let result = run(alloc, &mut unit, steps, out);
            (unit.close(), result)
        }
        Err((error, disk)) => (disk, Err(LiveError::Open(error))),
    }
}
