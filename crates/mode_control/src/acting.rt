//! What the driver does: an action counts where it is accepted in the situation before the event.
ghost use Rattle.std.specs.Prelude.{◌≡◌, true, None, Some};
ghost use Rattle.driver.specs.Accepting.{accepts, refusal};
ghost use Rattle.track_picture.specs.Entry.{TrackEntry};
ghost use Rattle.track_picture.specs.Still.{closes_none};
ghost use Rattle.mode_control.specs.Entry.{initial};
ghost use Rattle.mode_control.specs.Life.{Life, driver_of, grown};
ghost use Rattle.mode_control.specs.Sentences.{situation, occasion, deed_by, deed_of};
ghost use Rattle.mode_control.specs.StandsFor.{StandsForLife, parts_of};

use crate::acknowledging::acknowledge;
use crate::calls::Kind;
use crate::deed::Deed;
use crate::parts::Parts;
use crate::state::SupervisionOver;
use driver::{Action, ActionRefusal, ActionSituation, Occasion};
use events::Input;
use track_picture::ProfileStores;

impl Parts {
    // An action is accepted.
    fn act(&mut self, deed: &Deed)
        ensures { (life : Life) (reported : TrackEntry) → self.old ≡ parts_of life
            → self.new ≡ parts_of (grown life (initial (record reported { entered = None }) (Some deed.now))) }
    {
        self.driver.act(&deed.action, &deed.occasion);
        acknowledge(&mut self.on_sight, Kind::OnSight, &deed.action);
        acknowledge(&mut self.shunting, Kind::Shunting, &deed.action);
        acknowledge(&mut self.level_0, Kind::Level0, &deed.action);
        self.done = Some(deed.action);
    }

    /// What the driver did in an event.
    pub fn note(&mut self, deed: &Option<Deed>)
        ensures none { deed.now ≡ None → self.new ≡ record self.old { done = None } }
        ensures stands { (life : Life) (reported : TrackEntry) → self.old ≡ parts_of life
            → self.new ≡ parts_of (grown life (initial (record reported { entered = None }) deed.now)) }
    {
        match deed {
            None => self.done = None,
            Some(deed) => self.act(deed),
        }
    }
}

impl<T: ProfileStores> SupervisionOver<T> {
    // What bears on which actions are accepted.
    fn situation(&self) -> ActionSituation
        ensures { (life : Life) → StandsForLife T.stores self.now life → result ≡ situation life }
    {
        ActionSituation {
            mode: self.parts.mode,
            speed: self.track.speed(),
            override_allowed: self.track.national().values().override_allowed,
            on_sight_waits: self.parts.on_sight.waits(),
            shunting_waits: self.parts.shunting.waits(),
            level_0_waits: self.parts.level_0.waits(),
        }
    }

    // When an action is accepted now, and how long an override lasts.
    fn occasion(&self) -> Occasion
        ensures { (life : Life) → StandsForLife T.stores self.now life → result ≡ occasion life }
    {
        let values = self.track.national().values();
        let override_time = match values.override_time {
            None => None,
            Some(time) => Some(time.to_ms()),
        };
        Occasion {
            moment: self.track.moment(),
            path: self.track.place().sums().path(),
            override_time,
            override_distance: values.override_distance,
        }
    }

    /// Whether an action would be accepted now, as the next event.
    pub fn accepts(&self, action: &Action) -> bool
        ensures { (life : Life) → StandsForLife T.stores self.now life
            → result ≡ accepts (driver_of life) (situation life) action.now }
    {
        self.parts.driver.accepts(action, &self.situation())
    }

    /// Why an action wouldn't be accepted now, as the next event.
    pub fn refusal(&self, action: &Action) -> Option<ActionRefusal>
        ensures { (life : Life) → StandsForLife T.stores self.now life
            → result ≡ refusal (driver_of life) (situation life) action.now }
    {
        self.parts.driver.refusal(action, &self.situation())
    }

    // What an action does, if it is accepted. It stands out of line, so that other inputs don't go about a deed.
    #[inline(never)]
    fn deed_by(&self, action: &Action) -> Option<Deed>
        ensures { (life : Life) → StandsForLife T.stores self.now life → result ≡ deed_by life action.now }
    {
        if !self.accepts(action) {
            return None;
        }
        Some(Deed {
            action: *action,
            occasion: self.occasion(),
        })
    }

    /// What the driver does by an input, if it is accepted.
    pub(crate) fn deed(&self, input: &Input) -> Option<Deed>
        ensures stands { (life : Life) → StandsForLife T.stores self.now life → result ≡ deed_of life input.now }
        ensures none { closes_none self.now.track.parts input.now ≡ true → result ≡ None }
    {
        match input {
            Input::Driver(action) => self.deed_by(action),
            Input::Telegram(_) | Input::Odometer(_) | Input::Clock(_) => None,
        }
    }
}
