//! What an event shows the brakes.
ghost use Rattle.std.specs.Prelude.{◌≡◌, ◌+◌, ◌-◌, ◌^◌, min, nat_lt, ℕ, if◌then◌else◌};
ghost use Rattle.kernel.specs.Brake.{stands, backward, backward_by};
ghost use Rattle.kernel.specs.StandsFor.{reading_of};

use events::{Input, Reading};
use units::{Movement, Mph};

/// What an event shows, once the limit is known that it answers (SUBSET-026, 3.14; this project's profile).
#[derive(Clone, Copy)]
pub struct Sight {
    /// Whether it is a reading of speed 0.
    pub stands: bool,
    /// How far the train has rolled backward in it, in centimetres.
    pub backward: u64,
    /// Whether linking or a balise group asks for the service brake.
    pub service_brake_requested: bool,
    /// The speed of the last reading, in metres per hour.
    pub speed: Mph,
    /// The limit after the event, in metres per hour.
    pub limit: Mph,
}

impl Sight {
    /// Whether the speed is above the limit by more than this, in metres per hour.
    pub fn is_above_by(&self, margin: u16) -> bool
        ensures { result ≡ nat_lt (self.now.limit + margin) self.now.speed }
    {
        self.limit.get() + u32::from(margin) < self.speed.get()
    }

    /// How far the train has rolled backward since its last standstill, in centimetres, where it was so far before the
    /// event.
    pub fn rolled(&self, before: u64) -> u64
        ensures { (n : ℕ) → before ≡ min n (2 ^ 64 - 1)
            → result ≡ min (self.now.backward + (if self.now.stands then 0 else n)) (2 ^ 64 - 1) }
    {
        let counted = if self.stands { 0 } else { before };
        self.backward.saturating_add(counted)
    }
}

/// The odometer's reading, if an input is one.
pub fn reading_of(input: &Input) -> Option<Reading>
    ensures { result ≡ reading_of input.now }
{
    match input {
        Input::Odometer(reading) => Some(*reading),
        Input::Telegram(_) | Input::Clock(_) | Input::Driver(_) => None,
    }
}

/// Whether it is a reading of speed 0.
pub fn stands(reading: &Option<Reading>) -> bool
    ensures { result ≡ stands reading.now }
{
    match reading {
        None => false,
        Some(reading) => reading.speed.get() == 0,
    }
}

// How far a movement leads backward, in centimetres.
fn backward(movement: Movement) -> u64
    ensures { result ≡ backward movement }
{
    let cm = movement.get();
    if cm < 0 { cm.unsigned_abs() } else { 0 }
}

/// How far a reading leads backward, in centimetres; nowhere where it is an overrun.
pub fn backward_by(overrun: bool, reading: &Option<Reading>) -> u64
    ensures { result ≡ backward_by overrun reading.now }
{
    match reading {
        Some(reading) if !overrun => backward(reading.movement),
        _ => 0,
    }
}
