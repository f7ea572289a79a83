//! A walk up to an event, whose life is run again.
ghost use Rattle.std.specs.Prelude.{◌≡◌, None, false, IsOk, OnOk, IfErr};
ghost use Rattle.lives.specs.Steps.Step.{Unreadable, Missing, Begins, GoesOn, Head};
ghost use Rattle.lives.specs.declared.errors.LateError.TheVariants.{NoMemory};
ghost use Rattle.image_calls.specs.Asking.{Asks};
ghost use Rattle.image_calls.specs.Lived.{is_record};

use crate::running::{begin, follow};
use blocks::Block;
use events::Kept;
use lives::{LateError, Seen, Unknown, Visit};
use reasons::Reasoning;
use std::alloc::Global;

/// A walk up to an event of a block.
#[derive(Drop)]
pub(crate) struct WalkToEvent {
    /// The number of the block.
    pub(crate) block: u64,
    /// The number of the event.
    pub(crate) event: u64,
    /// The life after the last record that was seen, if it is known.
    pub(crate) known: Option<Reasoning>,
    /// Whether that is the record of the event.
    pub(crate) is_met: bool,
}

impl WalkToEvent {
    /// Before the first step.
    pub(crate) fn of(block: u64, event: u64) -> WalkToEvent
        ensures { result ≡ record { block = block; event = event; known = None; is_met = false } }
    {
        WalkToEvent {
            block,
            event,
            known: None,
            is_met: false,
        }
    }

    // Whether a record is that of the event.
    fn is_of(&self, seen: &Seen<'_>) -> bool
        ensures { result ≡ is_record self.now.block self.now.event seen.now.block.now seen.now.entry.now }
    {
        if seen.block.number == self.block {
            seen.entry.number == self.event
        } else {
            false
        }
    }
}

impl Visit<()> for WalkToEvent {
    ghost IsReported = { λ step old _ new _. Asks step old new };

    ghost enough = { λ walk. walk.is_met };

    fn has_enough(&self) -> bool {
        self.is_met
    }

    // No step writes, and only one that runs an event takes memory.
    fn unreadable(&mut self, number: u64, _out: &mut ()) -> Result<(), LateError>
        ensures reported { OnOk result (Asks (Unreadable number) self.old self.new) }
        ensures ends { IsOk result }
    {
        self.known = None;
        Ok(())
    }

    fn missing(&mut self, _out: &mut ()) -> Result<(), LateError>
        ensures reported { OnOk result (Asks Missing self.old self.new) }
        ensures ends { IsOk result }
    {
        self.known = None;
        Ok(())
    }

    fn begins(
        &mut self,
        alloc: Global,
        before: &Result<Kept, Unknown>,
        seen: &Seen<'_>,
        _out: &mut (),
    ) -> Result<(), LateError>
        ensures reported { OnOk result (Asks (Begins seen.now.block.now seen.now.life before.now seen.now.entry.now)
            self.old self.new) }
        ensures refused { IfErr result (λ error. error ≡ NoMemory) }
    {
        let is_met = self.is_of(seen);
        let Ok(()) = begin(alloc, &mut self.known, before, &seen.entry.event) else {
            return Err(LateError::NoMemory);
        };
        self.is_met = is_met;
        Ok(())
    }

    fn goes_on(&mut self, alloc: Global, seen: &Seen<'_>, _out: &mut ()) -> Result<(), LateError>
        ensures reported { OnOk result (Asks (GoesOn seen.now.block.now seen.now.life seen.now.entry.now)
            self.old self.new) }
        ensures refused { IfErr result (λ error. error ≡ NoMemory) }
    {
        let is_met = self.is_of(seen);
        let Ok(()) = follow(alloc, &mut self.known, &seen.entry.event) else {
            return Err(LateError::NoMemory);
        };
        self.is_met = is_met;
        Ok(())
    }

    fn head(&mut self, block: &Block, _out: &mut ()) -> Result<(), LateError>
        ensures reported { OnOk result (Asks (Head block.now) self.old self.new) }
        ensures ends { IsOk result }
    {
        Ok(())
    }
}
