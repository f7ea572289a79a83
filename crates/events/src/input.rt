//! Inputs from balises, odometer, clock and driver, and events: inputs and power-ups (this project's profile).
ghost use Rattle.std.specs.Prelude.{◌≡◌};

use crate::TelegramBytes;
use driver::Action;
use mode_table::Cold;
use units::{Movement, Mph, Ms};

/// One reading of the odometer.
#[derive(Clone, Copy)]
pub struct Reading {
    /// The movement since the last reading, forward or backward, in centimetres.
    pub movement: Movement,
    /// The speed now, in metres per hour: 0 only at standstill.
    pub speed: Mph,
}

/// What comes in from outside.
#[derive(Drop)]
pub enum Input {
    /// The bytes that a balise sent; they need not carry a telegram.
    Telegram(TelegramBytes),
    /// A reading of the odometer.
    Odometer(Reading),
    /// A moment of this life, in milliseconds. Moments don't fall within a life.
    Clock(Ms),
    /// What the driver did.
    Driver(Action),
}

impl Input {
    /// An equal value. Takes no memory.
    pub fn copy(&self) -> Input
        ensures { result ≡ self.now }
    {
        match self {
            Input::Telegram(bytes) => Input::Telegram(bytes.copy()),
            Input::Odometer(reading) => Input::Odometer(*reading),
            Input::Clock(moment) => Input::Clock(*moment),
            Input::Driver(action) => Input::Driver(*action),
        }
    }
}

/// One atomic event.
#[derive(Drop)]
pub enum Event {
    /// Power comes on, and a life begins, with the cold movement value.
    PowerUp(Cold),
    /// Something comes in.
    Input(Input),
}
