//! What the driver entered, and which of the driver's actions would be accepted.
ghost use Rattle.std.specs.Prelude.{◌≡◌, List};
ghost use Rattle.driver.specs.Accepting.{accepts, refusal};
ghost use Rattle.events.specs.declared.input.Event.{Event};
ghost use Rattle.kernel.specs.Lives.{life_of};
ghost use Rattle.kernel.specs.StandsFor.{StandsFor, StandsForLife};
ghost use Rattle.mode_control.specs.Life.{Life, driver_of};
ghost use Rattle.mode_control.specs.Sentences.{situation};

use crate::state::StateOver;
use driver::{Action, ActionRefusal, Driver};
use track_picture::ProfileStores;

impl<T: ProfileStores> StateOver<T> {
    /// What the driver entered, with its statuses, and what was revalidated (SUBSET-026, 4.10 and 5.4), after the last event.
    pub fn driver(&self) -> &Driver
        ensures { (life : Life) → StandsForLife T.stores self.now life → result.now ≡ driver_of life }
    {
        self.supervision.driver()
    }

    /// Whether an action of the driver would be accepted as the next event (the table of actions: this project's
    /// profile): by the driver's data and the situation after the last event. An action that wouldn't has no effect.
    /// Takes no memory.
    pub fn accepts(&self, action: &Action) -> bool
        ensures { (events : List Event) → StandsFor T.stores self.now events
            → result ≡ accepts (driver_of (life_of events)) (situation (life_of events)) action.now }
    {
        self.supervision.accepts(action)
    }

    /// Why an action of the driver wouldn't be accepted as the next event: the first of its conditions that fails; None
    /// exactly where it would. Takes no memory.
    pub fn refusal(&self, action: &Action) -> Option<ActionRefusal>
        ensures { (events : List Event) → StandsFor T.stores self.now events
            → result ≡ refusal (driver_of (life_of events)) (situation (life_of events)) action.now }
    {
        self.supervision.refusal(action)
    }
}
