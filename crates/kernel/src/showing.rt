//! What a display is reported along with the output.
ghost use Rattle.std.specs.Prelude.{◌≡◌, is_some};
ghost use Rattle.kernel.specs.Showing.{waiting, motion_of, display_of};
ghost use Rattle.kernel.specs.StandsFor.{StandsForLife};
ghost use Rattle.mode_control.specs.Conditions.{is_overridden};
ghost use Rattle.mode_control.specs.Life.{Life};

use crate::state::StateOver;
use crate::window::{EMERGENCY_MARGIN, SERVICE_MARGIN};
use areas::Acknowledgement;
use driver::OverrideLeft;
use track_picture::ProfileStores;
use units::{Cm, Mph, Ms};

/// How long an acknowledgement may be owed before it orders the service brake, in milliseconds.
const BRAKE_DELAY: u64 = 5_000;

/// Whether the driver is waited for (SUBSET-026, 5.7, 5.9 and 5.10; when: this project's profile).
#[derive(Clone, Copy)]
pub enum Waiting {
    /// He isn't.
    Nothing,
    /// An acknowledgement is asked for, before the transition.
    Requested,
    /// It is owed, and so many milliseconds are left until it orders the service brake; 0 where it does.
    Owed(u64),
}

/// The acknowledgements of the three kinds.
#[derive(Clone, Copy)]
pub struct Acknowledgements {
    /// Of On Sight (5.9).
    pub on_sight: Waiting,
    /// Of Shunting (5.7).
    pub shunting: Waiting,
    /// Of level 0 (5.10).
    pub level_0: Waiting,
}

// Whether the driver is waited for at this moment.
fn waits_at(now: Ms, acknowledgement: Acknowledgement) -> Waiting
    ensures { result ≡ waiting now acknowledgement }
{
    match acknowledgement {
        Acknowledgement::Nothing | Acknowledgement::Done => Waiting::Nothing,
        Acknowledgement::Requested => Waiting::Requested,
        Acknowledgement::Owed(since) => {
            let over = since.get() + BRAKE_DELAY;
            Waiting::Owed(over.saturating_sub(now.get()))
        }
    }
}

/// How the train moves.
#[derive(Clone, Copy)]
pub struct Motion {
    /// The speed of the last reading of this life, in metres per hour; 0 before the first one.
    pub speed: Mph,
    /// How far the train has rolled backward since it stood, in centimetres, up to the greatest number of 64 bits.
    pub backward: u64,
    /// How far it may roll backward, in centimetres: the national value D_NVROLL that is in force.
    pub allowed: u64,
}

/// What a display shows along with the output.
#[derive(Clone, Copy)]
pub struct DisplayValues {
    /// Which acknowledgements the driver is waited for, and how long yet.
    pub waiting: Acknowledgements,
    /// What is left of an override: None exactly where the trip isn't overridden (SUBSET-026, 5.8).
    pub overriding: Option<OverrideLeft>,
    /// The speed above which the service brake comes, in metres per hour: the limit and 5 km/h (SUBSET-026, 3.13; the
    /// margin: this project's profile).
    pub service_speed: u32,
    /// The speed above which the emergency brake comes, in metres per hour: the limit and 10 km/h (SUBSET-026, 3.13;
    /// the margin: this project's profile).
    pub emergency_speed: u32,
    /// The maximum safe front, in centimetres from where the life began (SUBSET-026, 3.6.4): from there on what lies
    /// ahead is braked for.
    pub max_front: Cm,
}

impl<T: ProfileStores> StateOver<T> {
    /// How the train moves after the last event.
    pub fn motion(&self) -> Motion
        ensures { (life : Life) → StandsForLife T.stores self.now life → result ≡ motion_of life }
    {
        let track = self.supervision.track();
        Motion {
            speed: track.speed(),
            backward: self.parts.window.backward,
            allowed: u64::from(track.national().values().roll.get()),
        }
    }

    /// What a display shows along with the output of the last event. Takes no memory, and is worked out where it is
    /// asked alone.
    pub fn display_values(&self) -> DisplayValues
        ensures display_values { (life : Life) → StandsForLife T.stores self.now life → result ≡ display_of life }
        ensures exact { (life : Life) → StandsForLife T.stores self.now life → is_some result.overriding ≡ is_overridden life }
    {
        let now = self.supervision.track().moment();
        let limit = self.parts.limit.get();
        DisplayValues {
            waiting: Acknowledgements {
                on_sight: waits_at(now, self.supervision.on_sight()),
                shunting: waits_at(now, self.supervision.shunting()),
                level_0: waits_at(now, self.supervision.level_0()),
            },
            overriding: self.supervision.override_left(),
            service_speed: limit + u32::from(SERVICE_MARGIN),
            emergency_speed: limit + u32::from(EMERGENCY_MARGIN),
            max_front: self.supervision.stretch().max_front(),
        }
    }
}
