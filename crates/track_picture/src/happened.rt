//! A movement that led too far, and what linking asks for, in one event.
ghost use Rattle.std.specs.Prelude.{◌≡◌};
ghost use Rattle.track_picture.specs.Entry.{asking};

use linking::Effect;

/// What an event brings about for the train, along with its packets (this project's profile).
#[derive(Clone, Copy)]
pub struct Happened {
    /// Whether its movement led too far, and wasn't added.
    pub overrun: bool,
    /// What linking asks of the train.
    pub requested: Effect,
}

impl Happened {
    /// Nothing.
    pub const NOTHING: Happened = Happened {
        overrun: false,
        requested: Effect {
            trip: false,
            service: false,
        },
    };

    /// The same, where linking asks for something more.
    pub(crate) fn asking(self, effect: Effect) -> Happened
        ensures { result ≡ asking self effect }
    {
        Happened {
            overrun: self.overrun,
            requested: self.requested.combined_with(effect),
        }
    }
}
