//! A guard between the unit's brake and the train's.
ghost use Rattle.std.specs.Prelude.{◌≡◌, List};
ghost use Rattle.track_guard.specs.Guarding.{HearsAll, acknowledged, brake_of_all, commanded, empty, heard, held_by};
ghost use Rattle.track_guard.specs.declared.demanding.Demand.{Demand};

use crate::demanding::Situation;
use crate::tally::{count_demands, stronger};
use events::Brake;

/// What the equipment does with demands: its maker's choice.
#[derive(Clone, Copy)]
pub enum Policy {
    /// A trip is the emergency brake, and a service brake the service brake, until the driver acknowledges at standstill.
    Strict = 1,
    /// Demands are only reported.
    Warn = 2,
}

/// A guard next to the unit, outside its journal. After a power-up it is a new one, which knows of no telegram.
#[derive(Clone, Copy)]
pub struct Guard {
    /// What it does with demands.
    pub policy: Policy,
    /// The brake that it holds.
    pub brake: Brake,
    /// Whether it has heard a telegram since the power-up.
    pub has_heard: bool,
}

impl Guard {
    /// A guard after a power-up: it holds no brake.
    pub fn new(policy: Policy) -> Guard
        ensures { result ≡ empty policy }
    {
        Guard {
            policy,
            brake: Brake::None,
            has_heard: false,
        }
    }

    /// Takes in the strongest brake that a telegram demands.
    fn take(&mut self, demanded: Brake)
        ensures { (demands : List Demand) → demanded ≡ brake_of_all demands → self.new ≡ heard demands self.old }
    {
        let brake = match self.policy {
            Policy::Strict => stronger(self.brake, demanded),
            Policy::Warn => self.brake,
        };
        *self = Guard {
            policy: self.policy,
            brake,
            has_heard: true,
        };
    }

    /// Hears a telegram, before the unit is handed it: returns how many demands it makes (`demands` lists them), and holds
    /// the brake that the policy takes from them.
    pub fn hear(&mut self, bytes: &[u8], situation: Situation) -> u32
        ensures { HearsAll situation bytes.now self.old self.new result }
    {
        let tally = count_demands(bytes, situation);
        self.take(tally.brake);
        tally.count
    }

    /// Releases the brake that it holds, where the driver acknowledges at standstill; else nothing changes.
    pub fn acknowledge(&mut self, stands: bool)
        ensures { self.new ≡ acknowledged stands self.old }
    {
        if stands {
            self.brake = Brake::None;
        }
    }

    /// The brake to command where the unit commands this one: the stronger one of the two.
    pub fn command(&self, unit: Brake) -> Brake
        ensures { result ≡ commanded unit self.now }
    {
        stronger(unit, self.brake)
    }
}
