//! A life that is run again, with why it brakes.
ghost use Rattle.std.specs.Prelude.{◌≡◌, true, [], IfOk, OnOk, OnErr};
ghost use Rattle.events.specs.declared.input.Event.TheVariants.{PowerUp};
ghost use Rattle.kernel.specs.Brake.{causes_of};
ghost use Rattle.kernel.specs.Causes.{marked};
ghost use Rattle.kernel.specs.Closings.{closings_after};
ghost use Rattle.kernel.specs.Lives.{Story, onward, past_at, left_by};
ghost use Rattle.kernel.specs.Output.{output_at};
ghost use Rattle.kernel.specs.StandsFor.{StandsForLife};
ghost use Rattle.kernel.specs.Trips.{later_trip};
ghost use Rattle.mode_control.specs.Life.{Life};
ghost use Rattle.speed_supervision.specs.Causes.{IsLimitCause};
ghost use Rattle.track_picture.specs.Stores.{segment_stores};
ghost use Rattle.reasons.specs.Closings.{AreGroups, mode_before};
ghost use Rattle.reasons.specs.Runs.{runs_of, later_causes};
ghost use Rattle.reasons.specs.Trips.{trip_of};

use crate::closings::GroupsReport;
use crate::runs::Runs;
use crate::trips::{TripReport, trip_before, trip_held};
use events::{Event, Input, Kept, Output};
use kernel::{BrakeCause, BrakeCauses, State, TripCause};
use mode_table::{Cold, Mode};
use speed_supervision::LimitCause;
use std::alloc::Global;
use std::marker::Model;
use units::NoMemory;

/// A life that is run again from its power-up on, with the causes of each brake. It stores no history: what it says is
/// said of every story that it comes after.
#[derive(Drop)]
pub struct Reasoning {
    state: State,
    // The number of the next event, up to the greatest number of 64 bits.
    next: u64,
    runs: Runs,
    trip: Option<TripReport>,
    groups: GroupsReport,
}

impl Model for Reasoning {
    ghost use Rattle.reasons.specs.Reported.{Reasoned};

    ghost Value = { Reasoned };

    ghost view = { λ r. record { state = r.state; next = r.next; runs = r.runs; trip = r.trip; groups = r.groups } };
}

// The causes that hold in a life.
fn causes_in(state: &State) -> BrakeCauses
    ensures { (life : Life) → StandsForLife segment_stores state.now life → marked result ≡ causes_of life }
{
    state.brake_causes()
}

impl Reasoning {
    ghost use Rattle.reasons.specs.Reported.{Reasons, IsApplied};

    /// Begins a life after what was kept, and answers its power-up. It takes no memory.
    pub fn begin(alloc: Global, kept: &Kept, cold: Cold) -> (Reasoning, Output)
        ensures stands { (story : Story) → left_by cold kept.now ≡ left_by cold (past_at story).kept
            → Reasons (onward story (PowerUp cold)) result.0 }
        ensures output { (story : Story) → left_by cold kept.now ≡ left_by cold (past_at story).kept
            → result.1 ≡ output_at (onward story (PowerUp cold)) }
    {
        let (state, output) = State::power_up(alloc, kept, cold);
        let causes = causes_in(&state);
        let number = kept.events;
        let runs = Runs::initial(&causes, number);
        let reasoning = Reasoning {
            state,
            next: number.saturating_add(1),
            runs,
            trip: None,
            groups: GroupsReport::NONE,
        };
        (reasoning, output)
    }

    // Why an event enters Trip, as the next one. It is worked out of line, so that in other modes no memory is cleared for
    // a copy of what the kernel knows.
    #[inline(never)]
    fn trip_by(&self, alloc: Global, event: &Event) -> Result<Option<TripCause>, NoMemory>
        ensures { IfOk result (λ cause. (story : Story) → Reasons story self.now
            → cause ≡ later_trip (past_at story) event.now) }
    {
        match event {
            Event::PowerUp(_) => Ok(None),
            Event::Input(input) => Ok(self.state.trip_by(alloc, input)?),
        }
    }

    // Whether an event closes no balise group, as the next one: a telegram may, and a reading while one is being read.
    fn closes_none(&self, event: &Event) -> bool
        ensures { (story : Story) → Reasons story self.now → result ≡ true → closings_after (past_at story) event.now ≡ [] }
    {
        match event {
            Event::Input(Input::Telegram(_)) => false,
            Event::Input(Input::Odometer(_)) => self.state.track().group_being_read().is_none(),
            Event::Input(Input::Clock(_) | Input::Driver(_)) | Event::PowerUp(_) => true,
        }
    }

    // The mode before an event, as the next one; a life begins in Stand By.
    fn mode_before(&self, event: &Event) -> Mode
        ensures { (story : Story) → Reasons story self.now → result ≡ mode_before (past_at story) event.now }
    {
        match event {
            Event::PowerUp(_) => Mode::StandBy,
            Event::Input(_) => self.output().mode,
        }
    }

    // The kernel's answer to an event, as the next one, and the groups that it closes. They are worked out of line, so
    // that an event that closes none clears no memory for them.
    #[inline(never)]
    fn apply_closing(&mut self, alloc: Global, event: &Event) -> Result<Output, NoMemory>
        ensures refused { OnErr result (self.new ≡ self.old) }
        ensures applied { (story : Story) → Reasons story self.old → IfOk result (λ output. IsApplied story event.now self.old self.new output) }
    {
        let mode = self.mode_before(event);
        let closings = self.state.closings_by(alloc, event)?;
        let output = self.state.apply(alloc, event)?;
        self.groups = GroupsReport { mode, closings };
        Ok(output)
    }

    // The same of any event.
    fn apply(&mut self, alloc: Global, event: &Event) -> Result<Output, NoMemory>
        ensures refused { OnErr result (self.new ≡ self.old) }
        ensures applied { (story : Story) → Reasons story self.old → IfOk result (λ output. IsApplied story event.now self.old self.new output) }
    {
        if !self.closes_none(event) {
            return self.apply_closing(alloc, event);
        }
        let mode = self.mode_before(event);
        let output = self.state.apply(alloc, event)?;
        self.groups.clear(mode);
        Ok(output)
    }

    /// Runs one event more, and answers it. NoMemory where memory is refused; then nothing changes.
    pub fn follow(&mut self, alloc: Global, event: &Event) -> Result<Output, NoMemory>
        ensures refused { OnErr result (self.new ≡ self.old) }
        ensures stands { (story : Story) → Reasons story self.old → OnOk result (Reasons (onward story event.now) self.new) }
        ensures output { (story : Story) → Reasons story self.old
            → IfOk result (λ output. output ≡ output_at (onward story event.now)) }
    {
        let Ok(entered) = self.trip_by(alloc, event) else {
            return Err(NoMemory);
        };
        let Ok(output) = self.apply(alloc, event) else {
            return Err(NoMemory);
        };
        let causes = causes_in(&self.state);
        let number = self.next;
        let before = trip_before(event, self.trip);
        let trip = trip_held(causes.holds(BrakeCause::OwesTrip), entered, before, number);
        self.runs = self.runs.after(event, &causes, number);
        self.trip = trip;
        self.next = number.saturating_add(1);
        Ok(output)
    }

    /// What was answered to the last event.
    pub fn output(&self) -> Output
        ensures { (story : Story) → Reasons story self.now → result ≡ output_at story }
    {
        self.state.output()
    }

    /// The causes that hold after the last event.
    pub fn causes(&self) -> BrakeCauses
        ensures { (story : Story) → Reasons story self.now → marked result ≡ later_causes story }
    {
        causes_in(&self.state)
    }

    /// From which event on each of them has held.
    pub fn runs(&self) -> Runs
        ensures { (story : Story) → Reasons story self.now → result ≡ runs_of story }
    {
        self.runs
    }

    /// The trip that is owed, where it was entered in this life.
    pub fn trip(&self) -> Option<TripReport>
        ensures { (story : Story) → Reasons story self.now → result ≡ trip_of story }
    {
        self.trip
    }

    /// The groups that the last event closed, and what became of each.
    pub fn groups(&self) -> &GroupsReport
        ensures { (story : Story) → Reasons story self.now → AreGroups story result.now }
    {
        &self.groups
    }

    /// What decides the limit that was answered to the last event.
    pub fn limit_cause(&self) -> LimitCause
        ensures { (story : Story) → Reasons story self.now
            → IsLimitCause (past_at story).life (output_at story).limit result }
    {
        self.state.limit_cause()
    }

    /// What the kernel knows after the last event.
    pub fn state(&self) -> &State
        ensures { result.now ≡ self.now.state }
    {
        &self.state
    }
}
