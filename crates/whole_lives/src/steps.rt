//! The steps of a life.
ghost use Rattle.std.specs.Prelude.{◌≡◌, ◌≢◌, ℕ, false, ◌-◌, ◌<◌, ◌∷◌, ◌++◌, List, length, get_or, IsTrue, IfErr, OnOk, OnErr, None, Some, vec_len, vec_capacity};
ghost use Rattle.disk.specs.State.{contents_of, Counted};
ghost use Rattle.events.specs.Limits.{most_pending};
ghost use Rattle.events.specs.declared.input.Event.{Event};
ghost use Rattle.events.specs.declared.input.Event.TheVariants.{Input as an_input};
ghost use Rattle.journal.specs.Journals.{IsOpen};
ghost use Rattle.whole_lives.specs.Answers.{live_failed, is_full};
ghost use Rattle.unit_start.specs.Events.{account_of, IsAhead};
ghost use Rattle.whole_lives.specs.Runs.{flush_one, durable_by, IsStepped, IsOfRun, Took, Ran};
ghost use Rattle.onboard.specs.Progress.{progress_of, go_on};
ghost use Rattle.whole_lives.specs.Stops.{step_of, Stands, StopsAt, StepsEnd, IsDone, IsUnflushed};
ghost use Rattle.whole_lives.specs.Written.{earlier_one, earlier_by, IsLastWritten};
ghost use Rattle.onboard.specs.declared.released.Released.{Released};
ghost use Rattle.events.specs.declared.step.Step.TheVariants as a_step;

use crate::errors::LiveError;
use disk::Disk;
use events::{Input, MOST_PENDING, Step};
use onboard::{Onboard, Released};
use std::alloc::Global;

// The step at a place, as an equal value.
fn step_at(steps: &[Step], k: usize) -> Step
    requires { k < length steps.now }
    ensures { result ≡ get_or steps.now k result }
{
    match &steps[k] {
        Step::Accept(input) => Step::Accept(input.copy()),
        Step::Flush => Step::Flush,
    }
}

// Flushes, once there is space for what may be released.
fn flush_onto<D: Disk>(
    unit: &mut Onboard<D>,
    k: usize,
    out: &mut Vec<Released>,
) -> Result<(), LiveError>
    ensures counted { Counted (live_failed result) (D.state unit.old.disk) (D.state unit.new.disk) }
    ensures stepped { (whole_from : ℕ) (durable accepted : List Event) → IsTrue (D.state unit.old.disk).honest →
        IsOpen unit.old.journal (account_of whole_from durable) (D.state unit.old.disk) →
        IsAhead durable accepted unit.old.life →
        IsStepped whole_from a_step.Flush durable accepted (D.state unit.old.disk) (D.state unit.new.disk)
        × OnOk result (IsOpen unit.new.journal (account_of whole_from accepted) (D.state unit.new.disk)
        × IsAhead accepted accepted unit.new.life) }
    ensures last { (whole_from : ℕ) (earlier durable accepted : List Event) → IsTrue (D.state unit.old.disk).honest →
        IsOpen unit.old.journal (account_of whole_from durable) (D.state unit.old.disk) →
        IsAhead durable accepted unit.old.life →
        IsLastWritten (D.state unit.old.disk).sectors earlier durable (contents_of (D.state unit.old.disk)) →
        OnOk result (IsLastWritten (D.state unit.new.disk).sectors (earlier_one earlier durable accepted a_step.Flush)
        accepted (contents_of (D.state unit.new.disk))) }
    ensures released { OnOk result (out.new.items ≡ out.old.items ++ unit.old.life.pairs) }
    ensures nothing { OnErr result (out.new.items ≡ out.old.items) }
    ensures full { IfErr result (λ e. IsTrue (is_full e) →
        (vec_capacity out.new - vec_len out.new < most_pending) × (unit.new ≡ unit.old)) }
    ensures named { IfErr result (λ e. step_of e ≡ Some k) }
    ensures stood { OnOk result (Stands (progress_of unit.old.journal unit.old.life) a_step.Flush
        × (progress_of unit.new.journal unit.new.life
        ≡ go_on (progress_of unit.old.journal unit.old.life) a_step.Flush)) }
    ensures stopped { IfErr result (StopsAt (progress_of unit.old.journal unit.old.life) k a_step.Flush) }
{
    if out.reserve(MOST_PENDING).is_err() {
        return Err(LiveError::NoMemory(k));
    }
    match unit.flush() {
        Ok(pairs) => {
            let _space = out.extend_from_slice(pairs.as_slice());
            Ok(())
        }
        Err(error) => Err(LiveError::Flush(k, error)),
    }
}

fn accept_one<D: Disk>(
    alloc: Global,
    unit: &mut Onboard<D>,
    k: usize,
    input: Input,
) -> Result<(), LiveError>
    ensures counted { Counted (live_failed result) (D.state unit.old.disk) (D.state unit.new.disk) }
    ensures stepped { (whole_from : ℕ) (durable accepted : List Event) → IsTrue (D.state unit.old.disk).honest →
        IsOpen unit.old.journal (account_of whole_from durable) (D.state unit.old.disk) →
        IsAhead durable accepted unit.old.life →
        IsStepped whole_from (a_step.Accept input) durable accepted (D.state unit.old.disk) (D.state unit.new.disk)
        × OnOk result (IsOpen unit.new.journal (account_of whole_from durable) (D.state unit.new.disk)
        × IsAhead durable (an_input input ∷ accepted) unit.new.life) }
    ensures last { (whole_from : ℕ) (earlier durable accepted : List Event) → IsTrue (D.state unit.old.disk).honest →
        IsOpen unit.old.journal (account_of whole_from durable) (D.state unit.old.disk) →
        IsAhead durable accepted unit.old.life →
        IsLastWritten (D.state unit.old.disk).sectors earlier durable (contents_of (D.state unit.old.disk)) →
        OnOk result (IsLastWritten (D.state unit.new.disk).sectors
        (earlier_one earlier durable accepted (a_step.Accept input)) durable
        (contents_of (D.state unit.new.disk))) }
    ensures has_space_left { IfErr result (λ e. is_full e ≡ false) }
    ensures named { IfErr result (λ e. step_of e ≡ Some k) }
    ensures stood { OnOk result (Stands (progress_of unit.old.journal unit.old.life) (a_step.Accept input)
        × (progress_of unit.new.journal unit.new.life
        ≡ go_on (progress_of unit.old.journal unit.old.life) (a_step.Accept input))) }
    ensures stopped { IfErr result (StopsAt (progress_of unit.old.journal unit.old.life) k (a_step.Accept input)) }
{
    match unit.accept(alloc, input) {
        Ok(()) => Ok(()),
        Err(error) => Err(LiveError::Accept(k, error)),
    }
}

fn take<D: Disk>(
    alloc: Global,
    unit: &mut Onboard<D>,
    k: usize,
    step: Step,
    out: &mut Vec<Released>,
) -> Result<(), LiveError>
    ensures counted { Counted (live_failed result) (D.state unit.old.disk) (D.state unit.new.disk) }
    ensures stepped { (whole_from : ℕ) (durable accepted : List Event) → IsTrue (D.state unit.old.disk).honest →
        IsOpen unit.old.journal (account_of whole_from durable) (D.state unit.old.disk) →
        IsAhead durable accepted unit.old.life →
        IsStepped whole_from step durable accepted (D.state unit.old.disk) (D.state unit.new.disk)
        × OnOk result ((released : List Released) × (out.new.items ≡ out.old.items ++ released)
        × Took whole_from durable accepted step unit.new.journal unit.new.life (D.state unit.new.disk) released) }
    ensures last { (whole_from : ℕ) (earlier durable accepted : List Event) → IsTrue (D.state unit.old.disk).honest →
        IsOpen unit.old.journal (account_of whole_from durable) (D.state unit.old.disk) →
        IsAhead durable accepted unit.old.life →
        IsLastWritten (D.state unit.old.disk).sectors earlier durable (contents_of (D.state unit.old.disk)) →
        OnOk result (IsLastWritten (D.state unit.new.disk).sectors (earlier_one earlier durable accepted step)
        (flush_one durable accepted step) (contents_of (D.state unit.new.disk))) }
    ensures nothing { OnErr result (out.new.items ≡ out.old.items) }
    ensures full { IfErr result (λ e. IsTrue (is_full e) →
        (vec_capacity out.new - vec_len out.new < most_pending) × (unit.new ≡ unit.old)) }
    ensures named { IfErr result (λ e. step_of e ≡ Some k) }
    ensures stood { OnOk result (Stands (progress_of unit.old.journal unit.old.life) step
        × (progress_of unit.new.journal unit.new.life ≡ go_on (progress_of unit.old.journal unit.old.life) step)) }
    ensures stopped { IfErr result (StopsAt (progress_of unit.old.journal unit.old.life) k step) }
{
    match step {
        Step::Accept(input) => match accept_one(alloc, unit, k, input) {
            Ok(()) => Ok(()),
            Err(error) => Err(error),
        },
        Step::Flush => match flush_onto(unit, k, out) {
            Ok(()) => Ok(()),
            Err(error) => Err(error),
        },
    }
}

/// Takes the steps in order, up to the first error, whose step it names. What is released goes to the end of the list,
/// also where an error follows (this project's profile).
pub fn run<D: Disk>(
    alloc: Global,
    unit: &mut Onboard<D>,
    steps: &[Step],
    out: &mut Vec<Released>,
) -> Result<(), LiveError>
    ensures counted { Counted (live_failed result) (D.state unit.old.disk) (D.state unit.new.disk) }
    ensures full { IfErr result (λ e. IsTrue (is_full e) → vec_capacity out.new - vec_len out.new < most_pending) }
    ensures stopped { StepsEnd (progress_of unit.old.journal unit.old.life) steps.now result }
    ensures named { IfErr result (λ e. step_of e ≢ None) }
    ensures ran { (whole_from : ℕ) (initial : List Event) → IsTrue (D.state unit.old.disk).honest →
        IsOpen unit.old.journal (account_of whole_from initial) (D.state unit.old.disk) →
        IsAhead initial initial unit.old.life →
        (ended_run : Ran whole_from initial steps.now (D.state unit.old.disk) (D.state unit.new.disk) out.old.items
        out.new.items)
        × IsDone initial steps.now ⊥ result ended_run.steps_taken ended_run.durable_at_end ended_run.accepted_at_end ended_run.released
        × IsUnflushed whole_from (IsOfRun whole_from (D.state unit.old.disk).sectors initial) steps.now result
        ended_run.durable_at_end
        (D.state unit.old.disk) (D.state unit.new.disk) }
    ensures last { (whole_from : ℕ) (earlier initial : List Event) → IsTrue (D.state unit.old.disk).honest →
        IsOpen unit.old.journal (account_of whole_from initial) (D.state unit.old.disk) →
        IsAhead initial initial unit.old.life →
        IsLastWritten (D.state unit.old.disk).sectors earlier initial (contents_of (D.state unit.old.disk)) →
        OnOk result (IsLastWritten (D.state unit.new.disk).sectors (earlier_by earlier initial initial steps.now)
        (durable_by initial steps.now) (contents_of (D.state unit.new.disk))) }
{
    for k in 0..steps.len() {
        match take(alloc, unit, k, step_at(steps, k), out) {
            Ok(()) => {}
            Err(error) => return Err(error),
        }
    }
    Ok(())
}
