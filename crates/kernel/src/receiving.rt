//! What an event does.
ghost use Rattle.std.specs.Prelude.{◌≡◌, true, false, List, [], ◌∷◌, IsOk, OnOk, OnErr};
ghost use Rattle.events.specs.declared.input.Event.{Event};
ghost use Rattle.events.specs.declared.input.Event.TheVariants as event;
ghost use Rattle.kernel.specs.Lives.{Past, past_after, counted};
ghost use Rattle.kernel.specs.Quiet.{HasSpaceFor, HasNoTrack};
ghost use Rattle.kernel.specs.StandsFor.{StandsForLife, StandsAt, StandsFor, parts_of, sight_at};
ghost use Rattle.mode_control.specs.Entry.{SupervisionEntry};
ghost use Rattle.mode_control.specs.Life.{Life, grown};
ghost use Rattle.mode_control.specs.Sentences.{entry_of};
ghost use Rattle.mode_control.specs.StandsFor.{StandsForLife as SupervisionStandsForLife};
ghost use Rattle.mode_table.specs.Modes.{is_mode};
ghost use Rattle.speed_supervision.specs.Limit.{limit};
ghost use Rattle.track_picture.specs.Steps.{HasSpaceFor as TrackHasSpaceFor};
ghost use Rattle.track_picture.specs.Still.{closes_none as closes_no_group};

use crate::parts::Parts;
use crate::sight::{Sight, backward_by, reading_of, stands};
use crate::state::StateOver;
use events::{Event, Input};
use mode_control::SupervisionOver;
use mode_table::{Cold, Mode};
use std::alloc::Global;
use track_picture::ProfileStores;
use units::{Mph, NoMemory};

impl Parts {
    // An event shows this.
    fn note(&mut self, sight: &Sight)
        ensures { (life : Life) (entry : SupervisionEntry) → self.old ≡ parts_of life → sight.now ≡ sight_at life entry → self.new ≡ parts_of (grown life entry) }
    {
        self.window = self.window.after(sight);
        self.limit = sight.limit;
    }
}

// An input can close no balise group: a moment, or a reading while none is being read.
fn closes_none<T: ProfileStores>(supervision: &SupervisionOver<T>, input: &Input) -> bool
    ensures none { (life : Life) → SupervisionStandsForLife T.stores supervision.now life → result ≡ true
        → (entry_of life input.now).track.used.groups ≡ [] }
    ensures idle { result ≡ true → closes_no_group supervision.now.track.parts input.now ≡ true }
{
    match input {
        Input::Clock(_) => true,
        Input::Odometer(_) => supervision.track().group_being_read().is_none(),
        Input::Telegram(_) | Input::Driver(_) => false,
    }
}

// An event is calm that closes no group and keeps the mode.
fn is_calm(closes: bool, before: Mode, after: Mode) -> bool
    ensures { result ≡ true → (closes ≡ false) × (is_mode before after ≡ true) }
{
    !closes && after.number() == before.number()
}

// What an input shows that was just received, with the limit after it.
fn sight_of<T: ProfileStores>(
    supervision: &SupervisionOver<T>,
    input: &Input,
    allowed: Mph,
) -> Sight
    ensures { (life : Life) → SupervisionStandsForLife T.stores supervision.now (grown life (entry_of life input.now))
        → allowed ≡ limit (grown life (entry_of life input.now)) → result ≡ sight_at life (entry_of life input.now) }
{
    let reading = reading_of(input);
    let happened = supervision.track().happened();
    Sight {
        stands: stands(&reading),
        backward: backward_by(happened.overrun, &reading),
        service_brake_requested: happened.requested.service,
        speed: supervision.track().speed(),
        limit: allowed,
    }
}

impl<T: ProfileStores> StateOver<T> {
    // All that an input does. Where memory is refused, nothing changes.
    fn receive(&mut self, input: &Input) -> Result<(), NoMemory>
        ensures quiet { TrackHasSpaceFor T.stores self.old.supervision.track input.now → IsOk result }
        ensures track { TrackHasSpaceFor T.stores self.old.supervision.track input.now → HasNoTrack T.stores self.old
            → OnOk result (HasNoTrack T.stores self.new) }
        ensures life { OnOk result ((life : Life) → StandsForLife T.stores self.old life
            → StandsForLife T.stores self.new (grown life (entry_of life input.now))) }
        ensures counts { OnOk result (self.new.counts ≡ counted self.old.counts (event.Input input.now)) }
        ensures err { OnErr result (self.new ≡ self.old) }
    {
        let closes_none = closes_none(&self.supervision, input);
        let mode = self.supervision.mode();
        let closes = self.supervision.begin(input)?;
        self.carried.move_on(closes_none, input, &self.supervision);
        let before_end = self.carried.steady.is_some();
        let passed = self.supervision.finish(&self.carried.still, before_end);
        let calm = is_calm(closes, mode, self.supervision.mode());
        let limit = self.carried.limit_after(passed, calm, &self.supervision);
        let sight = sight_of(&self.supervision, input, limit);
        self.parts.note(&sight);
        self.counts = self.counts.received();
        Ok(())
    }

    // A power-up. It stands out of line, so that an input clears no memory for the new life.
    #[inline(never)]
    fn begin_again(&mut self, alloc: Global, cold: Cold)
        ensures stands { (events : List Event) → StandsFor T.stores self.old events
            → StandsFor T.stores self.new (event.PowerUp cold ∷ events) }
        ensures reaches { (past : Past) → StandsAt T.stores self.old past
            → StandsAt T.stores self.new (past_after past (event.PowerUp cold)) }
        ensures track { HasNoTrack T.stores self.new }
    {
        *self = StateOver::begin(alloc, self.kept(), cold);
    }

    /// All that an event does. Where memory is refused, nothing changes; none is refused where there is space for the
    /// event.
    pub(crate) fn take(&mut self, alloc: Global, event: &Event) -> Result<(), NoMemory>
        ensures quiet { HasSpaceFor T.stores self.old event.now → IsOk result }
        ensures track { HasSpaceFor T.stores self.old event.now → HasNoTrack T.stores self.old
            → OnOk result (HasNoTrack T.stores self.new) }
        ensures stands { OnOk result ((events : List Event) → StandsFor T.stores self.old events
            → StandsFor T.stores self.new (event.now ∷ events)) }
        ensures reaches { OnOk result ((past : Past) → StandsAt T.stores self.old past
            → StandsAt T.stores self.new (past_after past event.now)) }
        ensures err { OnErr result (self.new ≡ self.old) }
    {
        match event {
            Event::PowerUp(cold) => {
                self.begin_again(alloc, *cold);
                Ok(())
            }
            Event::Input(input) => self.receive(input),
        }
    }
}
