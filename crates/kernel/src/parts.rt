//! What the kernel holds along with supervision and counts: the window of the brakes, the limit, the kept position.
ghost use Rattle.std.specs.Prelude.{◌≡◌, []};
ghost use Rattle.kernel.specs.StandsFor.{parts_of};
ghost use Rattle.mode_control.specs.Sentences.{initial_life};

use crate::window::Window;
use driver::Datum;
use events::{Kept, Position};
use mode_table::{Cold, Item, power_up_status};
use std::marker::Model;
use units::Mph;

/// What is known along with what is supervised (this project's profile).
#[derive(Clone, Copy)]
pub struct Parts {
    /// What the brakes remember of the time since the train was at standstill.
    pub window: Window,
    /// The limit after the last event, in metres per hour.
    pub limit: Mph,
    /// What the power-up left of the position that was kept.
    pub position: Datum<Position>,
}

impl Model for Parts {
    ghost use Rattle.kernel.specs.StandsFor.{KnownAlongside};

    ghost Value = { KnownAlongside };

    ghost view = { λ p. record {
      window = p.window;
      limit = p.limit;
      position = p.position;
    } };

    ghost inverse = { λ k. record {
      window = k.window;
      limit = k.limit;
      position = k.position;
    } };
}

impl Parts {
    /// As a life begins with what was kept.
    // It stands out of line, so that the state around it is laid into its place at once.
    #[inline(never)]
    pub fn new(kept: &Kept, cold: Cold) -> Self
        ensures before { result ≡ parts_of (record { kept = kept.now; cold = cold; entries = [] }) }
        ensures initial { result ≡ parts_of (initial_life kept.now cold) }
    {
        Parts {
            window: Window::new(),
            limit: no_speed(),
            position: kept.position.met_by(power_up_status(Item::Position, cold)),
        }
    }
}

/// The speed of a train at standstill, 0 m/h.
pub fn no_speed() -> Mph
    ensures { result ≡ 0 }
{
    Mph::new(0).unwrap()
}
