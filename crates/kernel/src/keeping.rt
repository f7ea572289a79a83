//! What a power-up keeps, and where the train is.
ghost use Rattle.std.specs.Prelude.{◌≡◌, List, ◌∷◌};
ghost use Rattle.events.specs.declared.input.Event.{Event};
ghost use Rattle.events.specs.declared.input.Event.TheVariants as event;
ghost use Rattle.kernel.specs.Lives.{Past, past_after, kept_of, left_by, kept_by};
ghost use Rattle.kernel.specs.Output.{output_of, output_after, estimate_in, uncertainty_in};
ghost use Rattle.kernel.specs.Position.{position_of};
ghost use Rattle.kernel.specs.Quiet.{HasNoTrack};
ghost use Rattle.kernel.specs.StandsFor.{StandsForLife, StandsAt, StandsFor};
ghost use Rattle.mode_control.specs.Life.{Life};

use crate::position::position_by;
use crate::state::StateOver;
use driver::Datum;
use events::{Estimate, Kept, Output, Position};
use mode_table::Cold;
use std::alloc::Global;
use track_picture::ProfileStores;

impl<T: ProfileStores> StateOver<T> {
    // Where the train is, by a balise group.
    fn position(&self) -> Datum<Position>
        ensures { (life : Life) → StandsForLife T.stores self.now life → result ≡ position_of life }
    {
        let track = self.supervision.track();
        position_by(&track.group_of_fix(), &self.parts.position, &track.place())
    }

    // What a power-up keeps of a life.
    fn kept_of_life(&self) -> Kept
        ensures { (life : Life) → StandsForLife T.stores self.now life → result ≡ kept_of self.now.counts life }
    {
        let driver = self.supervision.driver().kept();
        Kept {
            identity: driver.identity.value(),
            running_number: driver.running_number.value(),
            train_data: driver.train_data.value(),
            level: driver.level,
            position: self.position(),
            national: self.supervision.track().national().in_force().copy(),
            trip_outstanding: driver.trip_outstanding,
            events: self.counts.events,
            lives: self.counts.lives,
        }
    }

    /// What a power-up keeps (SUBSET-026, 4.10; what: this project's profile). Takes no memory.
    pub fn kept(&self) -> Kept
        ensures lists { (events : List Event) → StandsFor T.stores self.now events → result ≡ kept_by events }
        ensures pasts { (past : Past) → StandsAt T.stores self.now past → result ≡ past.kept }
    {
        self.kept_of_life()
    }

    /// A life begins with what was kept: what is known then, and what is answered. What is known of movements while the
    /// power was off decides whether level and position stay valid, so that only what it leaves of them counts. The
    /// caller owes a word that is true. Takes no memory.
    pub fn power_up(alloc: Global, kept: &Kept, cold: Cold) -> (Self, Output)
        ensures stands { (events : List Event) → left_by cold kept.now ≡ left_by cold (kept_by events) → StandsFor T.stores result.0 (event.PowerUp cold ∷ events) }
        ensures output { (events : List Event) → left_by cold kept.now ≡ left_by cold (kept_by events) → result.1 ≡ output_after (event.PowerUp cold ∷ events) }
        ensures initial { (past : Past) → left_by cold kept.now ≡ left_by cold past.kept
            → StandsAt T.stores result.0 (past_after past (event.PowerUp cold)) }
        ensures answer { (past : Past) → left_by cold kept.now ≡ left_by cold past.kept
            → result.1 ≡ output_of (past_after past (event.PowerUp cold)).life }
        ensures track { HasNoTrack T.stores result.0 }
    {
        let state = StateOver::begin(alloc, kept.copy(), cold);
        let output = state.output();
        (state, output)
    }

    /// Where the train is thought to be, in centimetres from where its life began, and how far that may be wrong to
    /// either side. Takes no memory.
    pub fn place_of(&self) -> (Estimate, u64)
        ensures estimate { (life : Life) → StandsForLife T.stores self.now life → result.0 ≡ estimate_in life }
        ensures uncertainty { (life : Life) → StandsForLife T.stores self.now life → result.1 ≡ uncertainty_in life }
    {
        let place = self.supervision.track().place();
        let estimate = Estimate::new(place.estimate().get()).unwrap();
        (estimate, place.uncertainty().get() as u64)
    }
}
