//! What is released.
ghost use Rattle.std.specs.Prelude.{◌≡◌};
ghost use Rattle.unit_start.specs.Releases.{nothing_released};

use events::Output;
use std::marker::Model;

/// An output that may reach the train, with the number of its event (this project's profile). Along with the default, which
/// commands the emergency brake, only `Onboard::flush` makes one.
#[derive(Clone, Copy)]
pub struct Released {
    number: u64,
    output: Output,
}

impl Model for Released {
    ghost use Rattle.unit_start.specs.Releases.{Release};

    ghost Value = { Release };

    ghost view = { λ r. record { number = r.number; output = r.output } };

    ghost inverse = { λ r. record { number = r.number; output = r.output } };
}

impl Released {
    /// Of an event that is on the disk.
    pub(crate) fn of(number: u64, output: Output) -> Released
        ensures { result ≡ record { number = number; output = output } }
    {
        Released { number, output }
    }

    /// The number of its event, from 0 on.
    pub fn event(&self) -> u64
        ensures { result ≡ self.now.number }
    {
        self.number
    }

    /// What the kernel answered to the event: mode, level, brake, limit and indications.
    pub fn output(&self) -> Output
        ensures { result ≡ self.now.output }
    {
        self.output
    }
}

impl Default for Released {
    ghost is_default = { λ released. released ≡ nothing_released };

    /// Before the first event: Stand By, no valid level, the emergency brake, the limit 0, and shown alone that nothing
    /// is revalidated.
    fn default() -> Released {
        Released {
            number: 0,
            output: Output::blank(),
        }
    }
}
