//! The numbers of events and of lives.
ghost use Rattle.std.specs.Prelude.{◌≡◌};
ghost use Rattle.events.specs.declared.input.Event.TheVariants as event;
ghost use Rattle.events.specs.declared.input.Input.{Input};
ghost use Rattle.kernel.specs.Lives.{counted};
ghost use Rattle.mode_table.specs.declared.statuses.Cold.{Cold};

/// How many events there were, and how many of them were power-ups (this project's profile). Neither goes beyond its
/// greatest number.
#[derive(Clone, Copy)]
pub struct Counts {
    /// The events, up to the greatest number of 64 bits.
    pub events: u64,
    /// The power-ups, up to the greatest number of 32 bits.
    pub lives: u32,
}

impl Counts {
    /// Before the first event.
    pub const NONE: Counts = Counts {
        events: 0,
        lives: 0,
    };

    /// One power-up more.
    pub fn powered_up(self) -> Self
        ensures { (cold : Cold) → result ≡ counted self (event.PowerUp cold) }
    {
        Counts {
            events: self.events.saturating_add(1),
            lives: self.lives.saturating_add(1),
        }
    }

    /// One input more.
    pub fn received(self) -> Self
        ensures { (input : Input) → result ≡ counted self (event.Input input) }
    {
        Counts {
            events: self.events.saturating_add(1),
            lives: self.lives,
        }
    }
}
