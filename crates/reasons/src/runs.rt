//! From which event on each cause of a brake has held.
ghost use Rattle.std.specs.Prelude.{◌≡◌};
ghost use Rattle.events.specs.declared.input.Event.TheVariants.{PowerUp};
ghost use Rattle.mode_table.specs.declared.statuses.Cold.{Cold};
ghost use Rattle.kernel.specs.Causes.{marked};
ghost use Rattle.kernel.specs.Lives.{Story, onward};
ghost use Rattle.reasons.specs.Runs.{number_after, later_causes, gone_on, run_of, runs_of, first_in, run_held, runs_held};

use events::Event;
use kernel::{BrakeCause, BrakeCauses};

/// For each cause of a brake that holds, the number of the first event of the unbroken run of events of this life after
/// which it has held; None for a cause that doesn't hold (this project's profile).
#[derive(Clone, Copy)]
pub struct Runs {
    /// Of each cause, in the order of `BrakeCause::ALL`.
    pub firsts: [Option<u64>; 10],
}

// A run of events goes on, begins at this number, or is none.
fn gone_on(holds: bool, before: Option<u64>, number: u64) -> Option<u64>
    ensures { result ≡ gone_on holds before number }
{
    match (holds, before) {
        (false, _) => None,
        (true, None) => Some(number),
        (true, Some(first)) => Some(first),
    }
}

impl Runs {
    /// No cause holds.
    pub const NONE: Runs = Runs { firsts: [None; 10] };

    // The run of one cause after a further event, of this number, after which these causes hold.
    fn run_held(&self, cause: BrakeCause, causes: &BrakeCauses, number: u64) -> Option<u64>
        ensures { result ≡ run_held cause self.now (marked causes.now) number }
    {
        gone_on(causes.holds(cause), self.first(cause), number)
    }

    // After a further event, of this number, after which these causes hold.
    fn held(&self, causes: &BrakeCauses, number: u64) -> Runs
        ensures { result ≡ runs_held self.now (marked causes.now) number }
    {
        Runs {
            firsts: BrakeCause::ALL.map(|cause| self.run_held(cause, causes, number)),
        }
    }

    /// After a power-up of this number, after which these causes hold.
    pub fn initial(causes: &BrakeCauses, number: u64) -> Runs
        ensures { (story : Story) (cold : Cold) → marked causes.now ≡ later_causes (onward story (PowerUp cold))
            → number ≡ number_after story → result ≡ runs_of (onward story (PowerUp cold)) }
    {
        Runs::NONE.held(causes, number)
    }

    /// After a further event, of this number, after which these causes hold. A power-up begins all anew.
    pub fn after(&self, event: &Event, causes: &BrakeCauses, number: u64) -> Runs
        ensures { (story : Story) → self.now ≡ runs_of story → marked causes.now ≡ later_causes (onward story event.now)
            → number ≡ number_after story → result ≡ runs_of (onward story event.now) }
    {
        match event {
            Event::PowerUp(_) => Runs::initial(causes, number),
            Event::Input(_) => self.held(causes, number),
        }
    }

    /// From which event on a cause has held.
    pub fn first(&self, cause: BrakeCause) -> Option<u64>
        ensures value { result ≡ first_in self.now cause }
        ensures run { (story : Story) → self.now ≡ runs_of story → result ≡ run_of cause story }
    {
        self.firsts[cause.place()]
    }
}
