//! The steps of one profile message with their first place, looked up, forgotten and copied.
ghost use Rattle.std.specs.Prelude.{◌≡◌, ℤ, List, IfOk};
ghost use Rattle.track_store.specs.Facts.{given_by, from_mark};
ghost use Rattle.track_store.specs.Changes.{nearer, nearest_in, later, last_in};
ghost use Rattle.track_store.specs.Remembered.{forgotten};

use crate::Step;
use std::alloc::Global;
use std::marker::Model;
use units::{Cm, NoMemory};

/// One message about a profile (packets 21 and 27; SUBSET-026, 3.11): its values from a first place on.
#[derive(Drop)]
pub struct Fact<T> {
    start: Cm,
    steps: Vec<Step<T>>,
    // What lies before it was forgotten since.
    mark: Cm,
}

impl<T> Model for Fact<T> {
    ghost use Rattle.track_store.specs.Remembered.{Remembered};

    ghost Value = { Remembered T };

    ghost view = { λ f. record { start = f.start; steps = f.steps.items; mark = f.mark } };
}

impl<T: Copy> Fact<T> {
    /// A profile from a first place on, in centimetres, as steps give it. NoMemory where memory for their copy is
    /// refused.
    pub fn new(alloc: Global, start: Cm, steps: &[Step<T>]) -> Result<Self, NoMemory>
        ensures { IfOk result (λ fact. fact ≡ record { start = start; steps = steps.now; mark = start }) }
    {
        Ok(Fact::of(start, Vec::from_slice(alloc, steps)?))
    }

    /// The same of steps of its own.
    pub fn of(start: Cm, steps: Vec<Step<T>>) -> Self
        ensures { result ≡ record { start = start; steps = steps.items; mark = start } }
    {
        Fact {
            start,
            steps,
            mark: start,
        }
    }

    /// The first place, in centimetres.
    pub fn start(&self) -> Cm
        ensures { result ≡ self.now.start }
    {
        self.start
    }

    /// What the steps give at a place; None where no step or an end mark is at or below it, or it was forgotten.
    pub fn at(&self, place: Cm) -> Option<T>
        ensures { result ≡ from_mark self.now.mark (given_by self.now.steps) place }
    {
        if place < self.mark {
            return None;
        }
        let mut value = None;
        for step in &self.steps {
            if step.place <= place {
                value = Some(step.value?);
            }
        }
        value
    }

    /// Forgets what lies before a place, in centimetres.
    pub fn forget(&mut self, mark: Cm)
        ensures { self.new ≡ forgotten mark self.old }
    {
        self.mark = self.mark.max(mark);
    }

    /// The nearest of its changes ahead of a place, and of the nearest of others.
    pub(crate) fn nearest_change(&self, place: Cm, nearest: Option<Cm>) -> Option<Cm>
        ensures { result ≡ nearest_in place nearest self.now }
    {
        let mut nearest = nearer_of(place, nearest, self.start);
        nearest = nearer_of(place, nearest, self.mark);
        for step in &self.steps {
            nearest = nearer_of(place, nearest, step.place);
        }
        nearest
    }

    /// The last of its changes before a place, and of the last of others.
    pub(crate) fn last_change(&self, place: Cm, last: Cm) -> Cm
        ensures { result ≡ last_in place last self.now }
    {
        let mut last = later_of(place, last, self.start);
        last = later_of(place, last, self.mark);
        for step in &self.steps {
            last = later_of(place, last, step.place);
        }
        last
    }

    /// An equal fact; NoMemory where memory is refused.
    pub fn copy(&self, alloc: Global) -> Result<Self, NoMemory>
        ensures { IfOk result (λ copy. copy ≡ self.now) }
    {
        Ok(Fact {
            start: self.start,
            steps: Vec::from_slice(alloc, &self.steps)?,
            mark: self.mark,
        })
    }
}

// The nearer of a change, if it lies ahead of a place, and of the nearest so far.
fn nearer_of(place: Cm, nearest: Option<Cm>, change: Cm) -> Option<Cm>
    ensures { result ≡ nearer place nearest change }
{
    match nearest {
        _ if change <= place => nearest,
        Some(near) if near <= change => nearest,
        _ => Some(change),
    }
}

// The later of a change, if it lies before a place, and of the last so far.
fn later_of(place: Cm, last: Cm, change: Cm) -> Cm
    ensures { result ≡ later place last change }
{
    if last < change && change < place {
        change
    } else {
        last
    }
}
