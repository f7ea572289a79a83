//! A walk that says one line of a replay.
ghost use Rattle.std.specs.Prelude.{◌≡◌, Some, IsOk, OnOk, IfErr, if◌then◌else◌};
ghost use Rattle.lives.specs.Steps.Step.{Unreadable, Missing, Begins, GoesOn, Head};
ghost use Rattle.lives.specs.declared.errors.LateError.TheVariants.{NoMemory};
ghost use Rattle.image_calls.specs.Lines.{initial, is_on, is_ended, has_events, extended, ended, after_record, after_block};
ghost use Rattle.image_calls.specs.Lines.{TakesFound, TakesHead, DescribesStep};
ghost use Rattle.image_calls.specs.declared.lines.End.TheVariants.{Over};

use crate::journals::EtcsJournal;
use crate::verdicts::{EtcsReplay, Span, head_differs, record_differs};
use blocks::Block;
use events::Kept;
use lives::{LateError, Seen, Unknown, Visit};
use replaying::{Found, HeadFound, Judged};
use std::alloc::Global;

/// How a walk for a line ended.
#[derive(Clone, Copy)]
pub(crate) enum End {
    /// It goes on.
    Going,
    /// The line ends before the place.
    Over,
    /// The line says what differs.
    Differs,
    /// The line says that a block can't be read.
    Lost,
}

/// A walk for the line from a place on.
#[derive(Drop)]
pub(crate) struct Line {
    /// Where the line begins: before a record of a block, or before its head, where it has no record of this index.
    pub(crate) from: EtcsJournal,
    /// Where the walk is.
    pub(crate) next: EtcsJournal,
    /// How the life is judged that it is in.
    pub(crate) judged: Judged,
    /// The events of the line so far.
    pub(crate) events: Option<Span>,
    /// How it ended.
    pub(crate) end: End,
}

impl Line {
    /// Before the block of a number.
    pub(crate) fn initial(number: u64, from: EtcsJournal) -> Line
        ensures { result ≡ initial number from }
    {
        Line {
            from,
            next: EtcsJournal {
                block: number,
                index: 0,
                ..from
            },
            judged: Judged::Unknown(Unknown::BeforeOldest),
            events: None,
            end: End::Going,
        }
    }

    // Whether the walk has come to the line.
    fn is_on(&self) -> bool
        ensures { result ≡ is_on self.now }
    {
        if self.from.block == self.next.block {
            self.from.index <= self.next.index
        } else {
            self.from.block < self.next.block
        }
    }

    // Whether the line has events.
    fn has_events(&self) -> bool
        ensures { result ≡ has_events self.now }
    {
        self.events.is_some()
    }

    // Goes on after a record.
    fn pass_record(&mut self)
        ensures { self.new ≡ after_record self.old }
    {
        self.next.index = self.next.index.saturating_add(1);
    }

    // Goes on after a block.
    fn pass_block(&mut self)
        ensures { self.new ≡ after_block self.old }
    {
        self.next.block = self.next.block.saturating_add(1);
        self.next.index = 0;
    }

    // Takes one event more of a life into the line.
    fn take_event(&mut self, life: u32, event: u64)
        ensures { self.new ≡ record self.old { events = Some (extended self.old.events life event) } }
    {
        let (life, first_event) = match self.events {
            Some(events) => (events.life, events.first_event),
            None => (life, event),
        };
        self.events = Some(Span {
            first_event,
            last_event: event,
            life,
        });
    }

    // Takes a record that was judged.
    fn take(&mut self, seen: &Seen<'_>, found: &Option<Found>, out: &mut EtcsReplay)
        ensures { TakesFound seen.now.block.now seen.now.life seen.now.entry.now found.now self.old self.new out.old out.new }
    {
        match found {
            None => {
                if self.is_on() {
                    self.take_event(seen.life, seen.entry.number);
                }
                self.pass_record();
            }
            Some(found) => {
                if self.ends_before() {
                    return;
                }
                if self.is_on() {
                    *out = record_differs(
                        seen.block,
                        seen.life,
                        found.field,
                        seen.entry,
                        &found.answer,
                    );
                    self.end = End::Differs;
                }
                self.judged = Judged::AfterDifference;
                self.pass_record();
            }
        }
    }

    // Ends the line before a step, where it has events.
    fn ends_before(&mut self) -> bool
        ensures ends { result ≡ has_events self.old }
        ensures over { self.new ≡ (if has_events self.old then ended Over self.old else self.old) }
    {
        if self.has_events() {
            self.end = End::Over;
            return true;
        }
        false
    }

    // Takes what was found of the head of a block.
    fn take_head(&mut self, block: &Block, found: &Option<HeadFound>, out: &mut EtcsReplay)
        ensures { TakesHead block.now found.now self.old self.new out.old out.new }
    {
        let Some(found) = found else {
            self.pass_block();
            return;
        };
        if self.ends_before() {
            return;
        }
        if self.is_on() {
            *out = head_differs(block, found);
            self.end = End::Differs;
        }
        self.pass_block();
    }
}

impl Visit<EtcsReplay> for Line {
    ghost IsReported = { λ step old out new after. DescribesStep step old new out after };

    ghost enough = { λ line. is_ended line };

    fn has_enough(&self) -> bool {
        match self.end {
            End::Going => false,
            End::Over | End::Differs | End::Lost => true,
        }
    }

    // No step writes, and only one that runs an event takes memory.
    fn unreadable(&mut self, number: u64, out: &mut EtcsReplay) -> Result<(), LateError>
        ensures reported { OnOk result (DescribesStep (Unreadable number) self.old self.new out.old out.new) }
        ensures ends { IsOk result }
    {
        let _number = number;
        if self.ends_before() {
            return Ok(());
        }
        if self.is_on() {
            self.end = End::Lost;
        } else {
            self.judged = Judged::Unknown(Unknown::Gap);
        }
        self.pass_block();
        Ok(())
    }

    fn missing(&mut self, out: &mut EtcsReplay) -> Result<(), LateError>
        ensures reported { OnOk result (DescribesStep Missing self.old self.new out.old out.new) }
        ensures ends { IsOk result }
    {
        if !self.ends_before() {
            self.judged = Judged::Unknown(Unknown::Gap);
        }
        Ok(())
    }

    fn begins(
        &mut self,
        alloc: Global,
        before: &Result<Kept, Unknown>,
        seen: &Seen<'_>,
        out: &mut EtcsReplay,
    ) -> Result<(), LateError>
        ensures reported { OnOk result (DescribesStep (Begins seen.now.block.now seen.now.life before.now seen.now.entry.now)
            self.old self.new out.old out.new) }
        ensures refused { IfErr result (λ error. error ≡ NoMemory) }
    {
        if self.ends_before() {
            return Ok(());
        }
        let Ok(found) = self
            .judged
            .begin(alloc, before, seen.block.format, seen.entry)
        else {
            return Err(LateError::NoMemory);
        };
        self.take(seen, &found, out);
        Ok(())
    }

    fn goes_on(
        &mut self,
        alloc: Global,
        seen: &Seen<'_>,
        out: &mut EtcsReplay,
    ) -> Result<(), LateError>
        ensures reported { OnOk result (DescribesStep (GoesOn seen.now.block.now seen.now.life seen.now.entry.now)
            self.old self.new out.old out.new) }
        ensures refused { IfErr result (λ error. error ≡ NoMemory) }
    {
        let Ok(found) = self.judged.follow(alloc, seen.block.format, seen.entry) else {
            return Err(LateError::NoMemory);
        };
        self.take(seen, &found, out);
        Ok(())
    }

    fn head(&mut self, block: &Block, out: &mut EtcsReplay) -> Result<(), LateError>
        ensures reported { OnOk result (DescribesStep (Head block.now) self.old self.new out.old out.new) }
        ensures ends { IsOk result }
    {
        let found = self.judged.head(block);
        self.take_head(block, &found, out);
        Ok(())
    }
}
