//! Laws: what is released of any life.
ghost use Rattle.safety_laws.specs.Outputs.{ReleasedHalts, ReleasedBrakesForTrips};

use crate::running::outstanding_trip_brakes;
use crate::stopping::halts_at_location;

/// A law: a train that brakes from a speed up to a released limit stands at the supervised location at the latest, in
/// Full Supervision and On Sight, while no speed is allowed at the end of authority.
pub fn released_halts()
    ensures { ReleasedHalts }
{
    halts_at_location();
}

/// A law: while a trip isn't acknowledged, all that is released commands the emergency brake.
pub fn released_brakes_for_trips()
    ensures { ReleasedBrakesForTrips }
{
    outstanding_trip_brakes();
}
