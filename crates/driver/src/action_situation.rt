//! The mode, speed and acknowledgements that decide, with the driver's data, which actions are accepted.
ghost use Rattle.std.specs.Prelude.{◌≡◌};
ghost use Rattle.driver.specs.Accepting.{stands, standing_refusal, override_refusal};

use crate::ActionRefusal;
use crate::driver::needs;
use mode_table::Mode;
use units::Mph;

/// What bears on which actions are accepted along with the driver's data, as it is before the event (this project's
/// profile).
#[derive(Clone, Copy)]
pub struct ActionSituation {
    /// The mode.
    pub mode: Mode,
    /// The speed of the last reading, in metres per hour; 0 before the first.
    pub speed: Mph,
    /// The speed at or below which the trip may be overridden, in metres per hour (V_NVALLOWOVTRP).
    pub override_allowed: Mph,
    /// Whether an acknowledgement of On Sight is asked for or owed.
    pub on_sight_waits: bool,
    /// Whether an acknowledgement of Shunting is asked for or owed.
    pub shunting_waits: bool,
    /// Whether an acknowledgement of level 0 is asked for or owed.
    pub level_0_waits: bool,
}

impl ActionSituation {
    // Whether the train is at standstill.
    fn stands(&self) -> bool
        ensures { result ≡ stands self.now }
    {
        self.speed.get() == 0
    }

    /// Why an action isn't accepted that is done at standstill, in modes among which this one is or isn't.
    pub(crate) fn standing_refusal(&self, is_in_mode: bool) -> Option<ActionRefusal>
        ensures { result ≡ standing_refusal is_in_mode self.now }
    {
        let mode = needs(is_in_mode, ActionRefusal::OtherMode);
        mode.or(needs(self.stands(), ActionRefusal::NotAtStandstill))
    }

    /// Why an override isn't accepted.
    pub(crate) fn override_refusal(&self) -> Option<ActionRefusal>
        ensures { result ≡ override_refusal self.now }
    {
        let here = matches!(
            self.mode,
            Mode::FullSupervision | Mode::OnSight | Mode::StaffResponsible | Mode::PostTrip
        );
        let mode = needs(here, ActionRefusal::OtherMode);
        mode.or(needs(self.speed <= self.override_allowed, ActionRefusal::TooFast))
    }
}
