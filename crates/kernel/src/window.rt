//! The memory of the brakes: overspeed, requests for the service brake, and rolling backward.
ghost use Rattle.std.specs.Prelude.{◌≡◌, [], not, ◌&&◌, ◌||◌};
ghost use Rattle.events.specs.declared.kept.Kept.{Kept};
ghost use Rattle.mode_table.specs.declared.statuses.Cold.{Cold};
ghost use Rattle.kernel.specs.StandsFor.{sight_at, window_of};
ghost use Rattle.mode_control.specs.Entry.{SupervisionEntry};
ghost use Rattle.mode_control.specs.Life.{Life, grown};
ghost use Rattle.mode_control.specs.Sentences.{initial_life};

use crate::sight::Sight;

/// Above the limit by more than this the service brake comes, in metres per hour.
pub(crate) const SERVICE_MARGIN: u16 = 5_000;

/// Above the limit by more than this the emergency brake comes, in metres per hour.
pub(crate) const EMERGENCY_MARGIN: u16 = 10_000;

/// What the brakes remember (this project's profile). All but `too_fast` is of the time since the last standstill, or
/// else since the power-up.
#[derive(Clone, Copy)]
pub struct Window {
    /// After some event the speed was above the limit by more than 10 km/h.
    pub far_too_fast: bool,
    /// Linking or a balise group asked for the service brake.
    pub service_brake_requested: bool,
    /// How far the train has rolled backward, in centimetres, up to the greatest number of 64 bits.
    pub backward: u64,
    /// The speed was above the limit by more than 5 km/h, and not at or below it since.
    pub too_fast: bool,
}

// Something is so from an event at which it begins, until one that ends it; where both are at one event it begins.
fn from_until(begins: bool, ends: bool, before: bool) -> bool
    ensures { result ≡ (begins || (not ends && before)) }
{
    begins || (!ends && before)
}

impl Window {
    /// Nothing, as a life begins.
    pub fn new() -> Self
        ensures nothing { (kept : Kept) (cold : Cold) → result ≡ window_of (record { kept = kept; cold = cold; entries = [] }) }
        ensures initial { (kept : Kept) (cold : Cold) → result ≡ window_of (initial_life kept cold) }
    {
        Window {
            far_too_fast: false,
            service_brake_requested: false,
            backward: 0,
            too_fast: false,
        }
    }

    /// What is remembered after an event that shows this.
    pub fn after(&self, sight: &Sight) -> Self
        ensures { (life : Life) (entry : SupervisionEntry) → self.now ≡ window_of life → sight.now ≡ sight_at life entry → result ≡ window_of (grown life entry) }
    {
        Window {
            far_too_fast: from_until(
                sight.is_above_by(EMERGENCY_MARGIN),
                sight.stands,
                self.far_too_fast,
            ),
            service_brake_requested: from_until(
                sight.service_brake_requested,
                sight.stands,
                self.service_brake_requested,
            ),
            backward: sight.rolled(self.backward),
            too_fast: from_until(
                sight.is_above_by(SERVICE_MARGIN),
                !sight.is_above_by(0),
                self.too_fast,
            ),
        }
    }
}
