//! A static speed profile is handed to a sink, step by step.
ghost use Rattle.std.specs.Prelude.{◌≡◌, ◌+◌, ◌≤◌, length, drop, slice_index_or, take, OnOk};
ghost use Rattle.packets.specs.Layouts.{no_step};
ghost use Rattle.packets.specs.StaticSteps.{profile_size, profile_taken, step_size, step_taken, steps_size, steps_taken};

use crate::sink::{FieldSink, put};
use crate::static_speeds::{Difference, StaticStep};
use crate::walk::list;
use bits::VariableName;
use vars::{Distance, Iterations, StaticSpeed, TrainLengthDelay, Variable};

/// The first step, or another one where there is none.
fn first_step<'a>(steps: &'a [StaticStep], other: &'a StaticStep) -> &'a StaticStep
    ensures { result.now ≡ slice_index_or steps.now 0 other.now }
{
    match steps.first() {
        Some(step) => step,
        None => other,
    }
}

/// A step to hand where there is none.
fn no_step() -> StaticStep
    ensures { result ≡ no_step }
{
    StaticStep {
        distance: Distance::of_number(0).unwrap(),
        speed: StaticSpeed::End,
        delay: TrainLengthDelay::Applied,
        differences: Iterations::of_number(0).unwrap(),
    }
}

/// The steps after the first.
fn other_steps(steps: &[StaticStep]) -> &[StaticStep]
    ensures { result.now ≡ drop 1 steps.now }
{
    &steps[steps.len().min(1)..]
}

/// The step's own of the differences that are left, and those after them.
fn split_own<'a>(step: &StaticStep, left: &'a [Difference]) -> (&'a [Difference], &'a [Difference])
    ensures own { result.0.now ≡ take step.now.differences left.now }
    ensures others { result.1.now ≡ drop step.now.differences left.now }
{
    left.split_at(usize::from(step.differences.count()).min(left.len()))
}

/// Hands a step to a sink, with its own differences.
fn step_fields<S: FieldSink>(
    step: &StaticStep,
    own: &[Difference],
    sink: &mut S,
) -> Result<(), S::Error>
    requires space { S.held sink.old + step_size own.now ≤ S.most }
    ensures value { OnOk result (S.seen sink.new ≡ step_taken S.took step.now own.now (S.seen sink.old)) }
    ensures held { OnOk result (S.held sink.new ≤ S.held sink.old + step_size own.now) }
{
    ok!(put(sink, VariableName::DStatic, &step.distance));
    ok!(put(sink, VariableName::VStatic, &step.speed));
    ok!(put(sink, VariableName::QFront, &step.delay));
    ok!(put(sink, VariableName::NIter, &step.differences));
    list(own, sink)
}

/// Hands steps to a sink, each with its own of the differences.
fn steps_fields<S: FieldSink>(
    steps: &[StaticStep],
    differences: &[Difference],
    sink: &mut S,
) -> Result<(), S::Error>
    requires space { S.held sink.old + steps_size steps.now differences.now ≤ S.most }
    ensures { OnOk result (S.seen sink.new ≡ steps_taken S.took steps.now differences.now (S.seen sink.old)) }
{
    let mut left = differences;
    for step in steps {
        let (own, others) = split_own(step, left);
        ok!(step_fields(step, own, sink));
        left = others;
    }
    Ok(())
}

/// Hands a profile to a sink: the first step, N_ITER and the other steps, each with its own of the differences.
pub(crate) fn profile_fields<S: FieldSink>(
    steps: &[StaticStep],
    differences: &[Difference],
    sink: &mut S,
) -> Result<(), S::Error>
    requires few { length steps.now ≤ 32 }
    requires space { S.held sink.old + profile_size steps.now differences.now ≤ S.most }
    ensures { OnOk result (S.seen sink.new ≡ profile_taken S.took steps.now differences.now (S.seen sink.old)) }
{
    let none = no_step();
    let first = first_step(steps, &none);
    let (own, left) = split_own(first, differences);
    ok!(step_fields(first, own, sink));
    let more = (steps.len() as u64).saturating_sub(1);
    ok!(sink.field(VariableName::NIter, 5, more));
    steps_fields(other_steps(steps), left, sink)
}
