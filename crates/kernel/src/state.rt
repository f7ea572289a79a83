//! The state of the kernel: before the first event, as a life begins, and copied (this project's profile).
ghost use Rattle.std.specs.Prelude.{◌≡◌, [], ◌∷◌, List, IsOk, IfOk};
ghost use Rattle.events.specs.declared.input.Event.{Event};
ghost use Rattle.events.specs.declared.input.Event.TheVariants.{PowerUp};
ghost use Rattle.events.specs.declared.kept.Kept.{Kept as KeptItems};
ghost use Rattle.mode_table.specs.declared.statuses.Cold.{Cold as ColdValue};
ghost use Rattle.kernel.specs.Lives.{counted, left_by, kept_by};
ghost use Rattle.kernel.specs.Output.{output_after};
ghost use Rattle.kernel.specs.Quiet.{HasNoTrack};
ghost use Rattle.kernel.specs.StandsFor.{StandsForLife, StandsFor, WaitsFor};
ghost use Rattle.mode_control.specs.Sentences.{initial_life};

use crate::carried::Carried;
use crate::counts::Counts;
use crate::parts::{Parts, no_speed};
use crate::window::Window;
use driver::Datum;
use events::{Kept, Output};
use mode_control::SupervisionOver;
use mode_table::Cold;
use std::alloc::Global;
use std::marker::Model;
use track_picture::{ProfileStores, Segments};
use units::NoMemory;

/// What the kernel knows, with stores for the gradients and the static speeds.
#[derive(Drop)]
pub struct StateOver<T: ProfileStores> {
    pub(crate) parts: Parts,
    pub(crate) counts: Counts,
    pub(crate) supervision: SupervisionOver<T>,
    pub(crate) carried: Carried,
}

/// What the kernel knows, with stores that stay short however long the life.
pub type State = StateOver<Segments>;

impl<T: ProfileStores> Model for StateOver<T> {
    ghost use Rattle.kernel.specs.StandsFor.{Knowledge};

    ghost Value = { Knowledge T.Gradients T.Speeds };

    ghost view = { λ s. record { parts = s.parts; counts = s.counts; supervision = s.supervision; carried = s.carried } };
}

impl<T: ProfileStores> StateOver<T> {
    /// What is known before the first event. Takes no memory.
    pub fn empty(alloc: Global) -> Self
        ensures stands { StandsFor T.stores result [] }
        ensures track { HasNoTrack T.stores result }
    {
        StateOver {
            parts: Parts {
                window: Window::new(),
                limit: no_speed(),
                position: Datum::Unknown,
            },
            counts: Counts::NONE,
            supervision: SupervisionOver::new(alloc, Kept::nothing(), Cold::Unknown),
            carried: Carried::NONE,
        }
    }

    /// What is known of a life of which only what was kept is known. `begin_life` powers it up, where it lies then.
    /// Takes no memory.
    // It is laid into its place at once, where a caller gives it one.
    #[inline(always)]
    pub fn before_power_up(alloc: Global, kept: Kept, cold: Cold) -> Self
        ensures waits { WaitsFor T.stores result kept cold }
        ensures track { HasNoTrack T.stores result }
    {
        StateOver {
            parts: Parts::new(&kept, cold),
            counts: Counts {
                events: kept.events,
                lives: kept.lives,
            },
            supervision: SupervisionOver::new(alloc, kept, cold),
            carried: Carried::NONE,
        }
    }

    // The life begins, and is counted.
    fn set_out(&mut self)
        ensures life { (kept : KeptItems) (cold : ColdValue) → WaitsFor T.stores self.old kept cold
            → StandsForLife T.stores self.new (initial_life kept cold) }
        ensures counts { (cold : ColdValue) → self.new.counts ≡ counted self.old.counts (PowerUp cold) }
        ensures track { HasNoTrack T.stores self.old → HasNoTrack T.stores self.new }
    {
        self.supervision.set_out();
        self.carried = Carried::NONE;
        self.counts = self.counts.powered_up();
    }

    /// A life begins with what was kept, and is counted. Takes no memory.
    pub(crate) fn begin(alloc: Global, kept: Kept, cold: Cold) -> Self
        ensures life { StandsForLife T.stores result (initial_life kept cold) }
        ensures counts { result.counts ≡ counted (record { events = kept.events; lives = kept.lives }) (PowerUp cold) }
        ensures track { HasNoTrack T.stores result }
    {
        let mut initial = StateOver::before_power_up(alloc, kept, cold);
        initial.set_out();
        initial
    }

    /// The life begins of which only what was kept is known (`before_power_up`), as `power_up` begins it: what is
    /// answered. Takes no memory.
    pub fn begin_life(&mut self) -> Output
        ensures stands { (kept : KeptItems) (cold : ColdValue) (events : List Event) → WaitsFor T.stores self.old kept cold
            → left_by cold kept ≡ left_by cold (kept_by events) → StandsFor T.stores self.new (PowerUp cold ∷ events) }
        ensures output { (kept : KeptItems) (cold : ColdValue) (events : List Event) → WaitsFor T.stores self.old kept cold
            → left_by cold kept ≡ left_by cold (kept_by events) → result ≡ output_after (PowerUp cold ∷ events) }
        ensures track { HasNoTrack T.stores self.old → HasNoTrack T.stores self.new }
    {
        self.set_out();
        self.output()
    }

    /// An equal value; NoMemory where memory is refused. None is taken where no restriction and no profile is kept, nor
    /// space for one.
    pub fn copy(&self, alloc: Global) -> Result<Self, NoMemory>
        ensures value { IfOk result (λ copy. copy ≡ self.now) }
        ensures quiet { HasNoTrack T.stores self.now → IsOk result }
    {
        Ok(StateOver {
            parts: self.parts,
            counts: self.counts,
            supervision: self.supervision.copy(alloc)?,
            carried: self.carried,
        })
    }
}
