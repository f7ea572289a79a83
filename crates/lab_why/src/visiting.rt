//! The steps of a walk, explained: a life is run again, and its events have their lines.

use crate::course::{Course, Explanation, explanation_in, has_line};
use crate::demanding::demands_of;
use crate::group::group_lines;
use crate::known::known_if;
use crate::line::{WhyLine, event_line};
use blocks::{Block, BlockRecord};
use events::{Event, Kept};
use image_lines::LineSink;
use lab_replay::{LostBlock, Verdict};
use lives::{LateError, Seen, Unknown, Visit};
use reasons::Reasoning;
use std::alloc::Global;
use units::NoMemory;

// Runs one event more of a life, where that is known.
fn follow(alloc: Global, life: &mut Option<Reasoning>, event: &Event) -> Result<(), NoMemory> {
    if let Some(life) = life {
        life.follow(alloc, event)?;
    }
    Ok(())
}

// Runs the power-up of a life after what was kept before it; where nobody knows that, as one event more.
fn begin(
    alloc: Global,
    life: &mut Option<Reasoning>,
    before: &Result<Kept, Unknown>,
    event: &Event,
) -> Result<(), NoMemory> {
    match (before, event) {
        (Ok(kept), Event::PowerUp(cold)) => {
            let (initial, _) = Reasoning::begin(alloc, kept, *cold);
            *life = Some(initial);
            Ok(())
        }
        _ => follow(alloc, life, event),
    }
}

// The line of the last event of a life, where it has one.
fn line_of(
    alloc: Global,
    course: &Course,
    life: &Reasoning,
    entry: &BlockRecord,
    explanation: &Explanation,
) -> Result<Option<WhyLine>, NoMemory> {
    let (number, before) = (entry.number, &course.before);
    let closed = life.groups();
    let groups = group_lines(alloc, closed)?;
    let demands = demands_of(alloc, &entry.event, closed.mode, before, &groups)?;
    if !has_line(course.options, number, before, explanation, &demands) {
        return Ok(None);
    }
    let known = known_if(alloc, course.options.known, life)?;
    let line = event_line(life, number, explanation, groups, demands, known);
    Ok(Some(line))
}

// Hands on the line of an event that was run, where it has one; or else the event is left out.
fn describe<S: LineSink<WhyLine>>(
    alloc: Global,
    course: &mut Course,
    seen: &Seen<'_>,
    sink: &mut S,
) -> Result<(), LateError> {
    let Some(life) = &course.life else {
        course.leave_out(seen.life, seen.entry.number);
        return Ok(());
    };
    let explanation = explanation_in(life);
    let Ok(line) = line_of(alloc, course, life, seen.entry, &explanation) else {
        return Err(LateError::NoMemory);
    };
    course.before = Some(explanation);
    if let Some(line) = line {
        course.events = course.events.saturating_add(1);
        sink.take(&line)?;
    }
    Ok(())
}

impl<S: LineSink<WhyLine>> Visit<S> for Course {
    ghost use Rattle.std.specs.Prelude.{⊤, false};

    ghost IsReported = { λ _ _ _ _ _. ⊤ };

    ghost enough = { λ _. false };

    fn has_enough(&self) -> bool {
        false
    }

    fn unreadable(&mut self, number: u64, sink: &mut S) -> Result<(), LateError> {
        self.pass_gap(sink)?;
        match self.options.only {
            Some(_) => Ok(()),
            None => sink.take(&WhyLine::Lost(LostBlock {
                block: number,
                replay: Verdict::Unreadable,
            })),
        }
    }

    fn missing(&mut self, sink: &mut S) -> Result<(), LateError> {
        self.pass_gap(sink)
    }

    fn begins(
        &mut self,
        alloc: Global,
        before: &Result<Kept, Unknown>,
        seen: &Seen<'_>,
        sink: &mut S,
    ) -> Result<(), LateError> {
        self.finish(sink)?;
        self.begin_after(before);
        let Ok(()) = begin(alloc, &mut self.life, before, &seen.entry.event) else {
            return Err(LateError::NoMemory);
        };
        describe(alloc, self, seen, sink)
    }

    fn goes_on(&mut self, alloc: Global, seen: &Seen<'_>, sink: &mut S) -> Result<(), LateError> {
        let Ok(()) = follow(alloc, &mut self.life, &seen.entry.event) else {
            return Err(LateError::NoMemory);
        };
        describe(alloc, self, seen, sink)
    }

    fn head(&mut self, _block: &Block, _sink: &mut S) -> Result<(), LateError> {
        Ok(())
    }
}
