//! The answer to an event: mode, level, brakes, limit and indications (this project's profile).
ghost use Rattle.std.specs.Prelude.{◌≡◌};
ghost use Rattle.events.specs.Blank.{blank_answer};
ghost use Rattle.events.specs.Indications.{number_of};

use mode_table::{Mode, TrainLevel};
use units::Mph;

/// What the brakes are commanded to do (SUBSET-026, 3.14).
#[derive(Clone, Copy)]
pub enum Brake {
    /// Nothing.
    None,
    /// The service brake is applied.
    Service,
    /// The emergency brake is applied.
    Emergency,
}

/// What the driver is shown along with mode, level and limit.
#[derive(Clone, Copy)]
pub struct Indications {
    /// An acknowledgement of On Sight is asked for or owed.
    pub on_sight: bool,
    /// An acknowledgement of Shunting is asked for or owed.
    pub shunting: bool,
    /// An acknowledgement of level 0 is asked for or owed.
    pub level_0: bool,
    /// A trip isn't acknowledged yet.
    pub trip: bool,
    /// The trip is overridden.
    pub overridden: bool,
    /// The driver hasn't revalidated since power-up.
    pub not_revalidated: bool,
    /// The speed of the last reading is above the limit.
    pub overspeed: bool,
}

impl Indications {
    /// All of them as one number: the sum of 1, 2, 4, 8, 16, 32 and 64 for those that are shown, in the order of the
    /// fields.
    pub fn number(&self) -> u8
        ensures { result ≡ number_of self.now }
    {
        u8::from(self.on_sight)
            + 2 * u8::from(self.shunting)
            + 4 * u8::from(self.level_0)
            + 8 * u8::from(self.trip)
            + 16 * u8::from(self.overridden)
            + 32 * u8::from(self.not_revalidated)
            + 64 * u8::from(self.overspeed)
    }
}

/// What the kernel answers to an event.
#[derive(Clone, Copy)]
pub struct Output {
    /// The mode after the event (SUBSET-026, 4.4).
    pub mode: Mode,
    /// The level after the event; None where it isn't valid.
    pub level: Option<TrainLevel>,
    /// What the brakes are commanded to do.
    pub brake: Brake,
    /// The speed that the train may run, in metres per hour (SUBSET-026, 3.13).
    pub limit: Mph,
    /// What the driver is shown.
    pub indications: Indications,
}

impl Output {
    /// The answer while nothing is known: Stand By, no valid level, the emergency brake, the limit 0, and shown alone
    /// that nothing is revalidated.
    pub fn blank() -> Output
        ensures { result ≡ blank_answer }
    {
        Output {
            mode: Mode::StandBy,
            level: None,
            brake: Brake::Emergency,
            limit: Mph::new(0).unwrap(),
            indications: Indications {
                on_sight: false,
                shunting: false,
                level_0: false,
                trip: false,
                overridden: false,
                not_revalidated: true,
                overspeed: false,
            },
        }
    }
}
