//! How a course grows, step by step.
ghost use Rattle.std.specs.Prelude.{◌≡◌, ◌+◌, ◌≤◌, ◌^◌, ℤ, pos, neg_ℤ, ◌≤ℤ◌, ◌<ℤ◌, ◌+ℤ◌, ◌-ℤ◌, OnOk, IfOk, All};
ghost use Rattle.events.specs.Limits.{most_pending};
ghost use Rattle.simulator.specs.Numbers.{natural};
ghost use Rattle.simulator.specs.Passing.{passed};

use crate::balise::Balise;
use crate::distance::Distance;
use crate::step_kinds::StepKind;
use crate::track::Track;
use events::{Input, MOST_PENDING, Reading, Step};
use std::alloc::Global;
use units::{Movement, Mph, NoMemory};

/// How far a reading moves at most, in centimetres.
const LONGEST_READING: u64 = 10_000;

/// How far it is to a place ahead.
fn way(from: i128, to: i128) -> u64
    requires near { to ≤ℤ (from +ℤ pos 1_000_000) }
    requires low { neg_ℤ (pos (2 ^ 100)) ≤ℤ from }
    requires high { from ≤ℤ pos (2 ^ 100) }
    ensures { result ≡ natural (to -ℤ from) }
{
    if to > from { (to - from) as u64 } else { 0 }
}

/// The steps of a life so far, where the front is, and how many events are pending (this project's profile). A front of
/// 128 bits has space for any number of drives.
#[derive(Drop)]
pub struct Course {
    /// Where the front is, in centimetres ahead of where it started.
    pub front: i128,
    /// How many events are pending.
    pub pending: usize,
    /// The steps so far.
    pub steps: Vec<Step>,
    ghost few: { pending ≤ most_pending },
}

impl Course {
    ghost use Rattle.simulator.specs.Course.{run_of, start, accepted, flushed, ended, readings, driven_to, driven_over, driven_over_all, driven, taken};

    /// The train stands where it starts: the front is at 0, and there are no steps.
    pub fn new(alloc: Global) -> Course
        ensures { run_of result ≡ start }
    {
        Course {
            front: 0,
            pending: 0,
            steps: Vec::new(alloc),
        }
    }

    // One more flush.
    fn flush(&mut self) -> Result<(), NoMemory>
        ensures ok { OnOk result (run_of self.new ≡ flushed (run_of self.old)) }
    {
        self.steps.push(Step::Flush)?;
        self.pending = 0;
        Ok(())
    }

    // One more event, after a flush where there is no space for it.
    #[inline(always)]
    fn accept(&mut self, input: Input) -> Result<(), NoMemory>
        ensures ok { OnOk result (run_of self.new ≡ accepted input (run_of self.old)) }
    {
        if self.pending == MOST_PENDING {
            self.flush()?;
        }
        self.steps.push(Step::Accept(input))?;
        self.pending += 1;
        Ok(())
    }

    /// The steps, the last one a flush where something is pending. NoMemory where memory for it was refused.
    pub fn end(mut self) -> Result<Vec<Step>, NoMemory>
        ensures ok { IfOk result (λ steps. steps.items ≡ (ended (run_of self)).steps) }
    {
        if self.pending != 0 {
            self.flush()?;
        }
        Ok(self.steps)
    }

    // Readings over so many centimetres.
    fn read(&mut self, cm: u64, speed: Mph) -> Result<(), NoMemory>
        ensures ok { OnOk result (run_of self.new ≡ readings cm speed (run_of self.old)) }
    {
        for count in 0..cm / LONGEST_READING {
            let movement = Movement::new(10_000).unwrap();
            self.accept(Input::Odometer(Reading { movement, speed }))?;
        }
        let rest = cm % LONGEST_READING;
        if rest != 0 {
            let movement = Movement::new(rest as i64).unwrap();
            self.accept(Input::Odometer(Reading { movement, speed }))?;
        }
        Ok(())
    }

    // Forward to a place.
    fn drive_to(&mut self, place: i128, speed: Mph) -> Result<(), NoMemory>
        requires near { place ≤ℤ (self.old.front +ℤ pos 1_000_000) }
        requires low { neg_ℤ (pos (2 ^ 100)) ≤ℤ self.old.front }
        requires high { self.old.front ≤ℤ pos (2 ^ 100) }
        ensures ok { OnOk result (run_of self.new ≡ driven_to place speed (run_of self.old)) }
    {
        let cm = way(self.front, place);
        self.read(cm, speed)?;
        self.front = place;
        Ok(())
    }

    // Forward to a balise, whose telegram is read.
    fn drive_over(&mut self, balise: &Balise, speed: Mph) -> Result<(), NoMemory>
        requires near { pos balise.now.at ≤ℤ (self.old.front +ℤ pos 1_000_000) }
        requires low { neg_ℤ (pos (2 ^ 100)) ≤ℤ self.old.front }
        requires high { self.old.front ≤ℤ pos (2 ^ 100) }
        ensures ok { OnOk result (run_of self.new ≡ driven_over speed balise.now (run_of self.old)) }
    {
        self.drive_to(i128::from(balise.at), speed)?;
        self.accept(balise.input())
    }

    // Forward over balises that lie ahead.
    fn drive_over_all(&mut self, balises: &[Balise], speed: Mph) -> Result<(), NoMemory>
        requires ahead { All (λ b. (self.old.front <ℤ pos b.at) × (pos b.at ≤ℤ (self.old.front +ℤ pos 1_000_000)))
            balises.now }
        requires low { neg_ℤ (pos (2 ^ 99)) ≤ℤ self.old.front }
        requires high { self.old.front ≤ℤ pos (2 ^ 99) }
        ensures ok { OnOk result (run_of self.new ≡ driven_over_all speed balises.now (run_of self.old)) }
        ensures least { OnOk result (self.old.front ≤ℤ self.new.front) }
        ensures most { OnOk result (self.new.front ≤ℤ (self.old.front +ℤ pos 1_000_000)) }
    {
        for balise in balises {
            self.drive_over(balise, speed)?;
        }
        Ok(())
    }

    // A drive.
    fn drive(&mut self, track: &Track, distance: Distance, speed: Mph) -> Result<(), NoMemory>
        requires low { neg_ℤ (pos (2 ^ 99)) ≤ℤ self.old.front }
        requires high { self.old.front ≤ℤ pos (2 ^ 99) }
        ensures ok { OnOk result (run_of self.new
            ≡ driven (passed track.now.balises.items) distance speed (run_of self.old)) }
    {
        let cm = distance.get();
        let place = self.front + i128::from(cm);
        if cm > 0 {
            self.drive_over_all(track.ahead(self.front, cm as u32), speed)?;
            self.drive_to(place, speed)
        } else {
            let movement = Movement::new(cm).unwrap();
            self.accept(Input::Odometer(Reading { movement, speed }))?;
            self.front = place;
            Ok(())
        }
    }

    /// Takes a step that is asked for, which moves the front by at most 1,000,000 cm. NoMemory where memory was
    /// refused; the course may then have a part of the step. The caller owes a front within 2^99 cm of the start.
    #[inline(always)]
    pub fn take(&mut self, track: &Track, step: StepKind) -> Result<(), NoMemory>
        requires low { neg_ℤ (pos (2 ^ 99)) ≤ℤ self.old.front }
        requires high { self.old.front ≤ℤ pos (2 ^ 99) }
        ensures ok { OnOk result (run_of self.new ≡ taken (passed track.now.balises.items) step (run_of self.old)) }
        ensures least { OnOk result (self.old.front ≤ℤ (self.new.front +ℤ pos 1_000_000)) }
        ensures most { OnOk result (self.new.front ≤ℤ (self.old.front +ℤ pos 1_000_000)) }
    {
        match step {
            StepKind::Drive(distance, speed) => self.drive(track, distance, speed),
            StepKind::Happens(input) => self.accept(input),
            StepKind::Flush => self.flush(),
        }
    }
}
