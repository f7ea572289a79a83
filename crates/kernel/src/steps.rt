//! From one event to the next: the new state, and the output.
ghost use Rattle.std.specs.Prelude.{◌≡◌, List, ◌∷◌, IsOk, IsOkAnd, IfOk, OnOk, OnErr};
ghost use Rattle.events.specs.declared.input.Event.{Event};
ghost use Rattle.events.specs.declared.input.Event.TheVariants.{PowerUp};
ghost use Rattle.kernel.specs.Lives.{Past, past_after};
ghost use Rattle.kernel.specs.Output.{output_of, output_after};
ghost use Rattle.kernel.specs.Quiet.{HasSpaceFor, HasNoTrack};
ghost use Rattle.kernel.specs.StandsFor.{StandsAt, StandsFor};
ghost use Rattle.mode_table.specs.declared.statuses.Cold.{Cold};

use crate::state::StateOver;
use events::{Event, Output};
use std::alloc::Global;
use track_picture::ProfileStores;
use units::NoMemory;

/// One event: what is known after it, and what is answered (this project's profile). The old state is unchanged.
/// NoMemory where memory for the new one is refused: a power-up takes none, and no event does that uses no packet while
/// no restriction and no profile is kept, nor space for one. Else the old state is copied. The caller owes moments of
/// the clock that don't fall in a life (`Onboard::accept` tests that).
pub fn step<T: ProfileStores>(
    alloc: Global,
    state: &StateOver<T>,
    event: &Event,
) -> Result<(StateOver<T>, Output), NoMemory>
    ensures power_up { (cold : Cold) → event.now ≡ PowerUp cold → IsOkAnd result (λ answer. HasNoTrack T.stores answer.0) }
    ensures quiet { HasNoTrack T.stores state.now → HasSpaceFor T.stores state.now event.now
        → IsOkAnd result (λ answer. HasNoTrack T.stores answer.0) }
    ensures stands { IfOk result (λ answer. (events : List Event) → StandsFor T.stores state.now events
        → StandsFor T.stores answer.0 (event.now ∷ events)) }
    ensures output { IfOk result (λ answer. (events : List Event) → StandsFor T.stores state.now events
        → answer.1 ≡ output_after (event.now ∷ events)) }
{
    match event {
        Event::PowerUp(cold) => Ok(StateOver::power_up(alloc, &state.kept(), *cold)),
        Event::Input(_) => {
            let mut next = state.copy(alloc)?;
            let output = next.apply(alloc, event)?;
            Ok((next, output))
        }
    }
}

impl<T: ProfileStores> StateOver<T> {
    /// The same in place; NoMemory where memory is refused, and then nothing changes. Space is made first for all that
    /// the event can add, so that nothing is copied. None is refused where there is space for it: there always is for a
    /// power-up, a moment, an action, and for a reading while no group is being read.
    pub fn apply(&mut self, alloc: Global, event: &Event) -> Result<Output, NoMemory>
        ensures quiet { HasSpaceFor T.stores self.old event.now → IsOk result }
        ensures track { HasSpaceFor T.stores self.old event.now → HasNoTrack T.stores self.old
            → OnOk result (HasNoTrack T.stores self.new) }
        ensures stands { OnOk result ((events : List Event) → StandsFor T.stores self.old events
            → StandsFor T.stores self.new (event.now ∷ events)) }
        ensures output { IfOk result (λ output. (events : List Event) → StandsFor T.stores self.old events
            → output ≡ output_after (event.now ∷ events)) }
        ensures reaches { OnOk result ((past : Past) → StandsAt T.stores self.old past
            → StandsAt T.stores self.new (past_after past event.now)) }
        ensures answers { IfOk result (λ output. (past : Past) → StandsAt T.stores self.old past
            → output ≡ output_of (past_after past event.now).life) }
        ensures refused { OnErr result (self.new ≡ self.old) }
    {
        self.take(alloc, event)?;
        Ok(self.output())
    }
}
