//! What the brakes are commanded to do, row by row of their table, and why.
ghost use Rattle.std.specs.Prelude.{◌≡◌, ◌||◌};
ghost use Rattle.kernel.specs.Brake.{has_rolled_too_far, must_stand, owes_too_long, brake_of, causes_of};
ghost use Rattle.kernel.specs.Causes.{marked};
ghost use Rattle.kernel.specs.StandsFor.{StandsForLife};
ghost use Rattle.mode_control.specs.Life.{Life};
ghost use Rattle.mode_table.specs.Modes.{is_mode};

use crate::causes::BrakeCauses;
use crate::state::StateOver;
use events::Brake;
use mode_table::Mode;
use track_picture::ProfileStores;

fn is_trip(mode: Mode) -> bool
    ensures { result ≡ is_mode Mode.Trip mode }
{
    matches!(mode, Mode::Trip)
}

fn is_system_failure(mode: Mode) -> bool
    ensures { result ≡ is_mode Mode.SystemFailure mode }
{
    matches!(mode, Mode::SystemFailure)
}

// A mode in which the emergency brake is commanded.
fn is_stopped_in(mode: Mode) -> bool
    ensures { result ≡ (is_mode Mode.Trip mode || is_mode Mode.SystemFailure mode) }
{
    is_trip(mode) || is_system_failure(mode)
}

// A mode in which the train must stand.
fn must_stand_in(mode: Mode) -> bool
    ensures { result ≡ (is_mode Mode.StandBy mode || is_mode Mode.PostTrip mode) }
{
    matches!(mode, Mode::StandBy | Mode::PostTrip)
}

impl<T: ProfileStores> StateOver<T> {
    // Whether the train has rolled backward too far.
    fn has_rolled_too_far(&self) -> bool
        ensures { (life : Life) → StandsForLife T.stores self.now life → result ≡ has_rolled_too_far life }
    {
        let roll = self.supervision.track().national().values().roll;
        u64::from(roll.get()) < self.parts.window.backward
    }

    // Whether it moves where it must stand.
    fn must_stand(&self) -> bool
        ensures { (life : Life) → StandsForLife T.stores self.now life → result ≡ must_stand life }
    {
        let mode = self.supervision.mode();
        must_stand_in(mode) && 0 < self.supervision.track().speed().get()
    }

    // Whether an acknowledgement has been owed too long.
    fn owes_too_long(&self) -> bool
        ensures { (life : Life) → StandsForLife T.stores self.now life → result ≡ owes_too_long life }
    {
        let now = self.supervision.track().moment();
        self.supervision.on_sight().brakes(now)
            || self.supervision.shunting().brakes(now)
            || self.supervision.level_0().brakes(now)
    }

    /// What the brakes are commanded to do.
    pub(crate) fn brake(&self) -> Brake
        ensures { (life : Life) → StandsForLife T.stores self.now life → result ≡ brake_of life }
    {
        let mode = self.supervision.mode();
        let driver = self.supervision.driver();
        let window = &self.parts.window;
        if !driver.is_revalidated()
            || is_stopped_in(mode)
            || driver.is_trip_outstanding()
            || window.far_too_fast
            || self.has_rolled_too_far()
        {
            Brake::Emergency
        } else if window.service_brake_requested
            || window.too_fast
            || self.must_stand()
            || self.owes_too_long()
        {
            Brake::Service
        } else {
            Brake::None
        }
    }

    // Which rows of the table hold.
    fn causes(&self) -> BrakeCauses
        ensures { (life : Life) → StandsForLife T.stores self.now life → marked result ≡ causes_of life }
    {
        let mode = self.supervision.mode();
        let driver = self.supervision.driver();
        let window = &self.parts.window;
        BrakeCauses {
            marks: [
                !driver.is_revalidated(),
                is_trip(mode),
                is_system_failure(mode),
                driver.is_trip_outstanding(),
                window.far_too_fast,
                self.has_rolled_too_far(),
                window.service_brake_requested,
                window.too_fast,
                self.must_stand(),
                self.owes_too_long(),
            ],
        }
    }

    /// Why the brakes are commanded after the last event: all rows of the brake table that hold (SUBSET-026, 3.14; the
    /// rows: this project's profile). Takes no memory, and is worked out where it is asked alone.
    pub fn brake_causes(&self) -> BrakeCauses
        ensures { (life : Life) → StandsForLife T.stores self.now life → marked result ≡ causes_of life }
    {
        self.causes()
    }
}
