//! Laws: when the unit brakes by itself, and the national speeds.
ghost use Rattle.safety_laws.specs.Intervening.{PassingEndTrips, FarTooFastBrakes, FarTooFastNowBrakes, RollingBackBrakes, NationalSpeedsAreKept};

/// A law: while no speed is allowed at the end of authority (V_LOA), a train in Full Supervision, On Sight or Staff
/// Responsible trips where its minimum safe front passes that end, unless an override is active; but for an overrun, and
/// for a desk that is closed at standstill.
pub fn passing_end_trips()
    ensures { PassingEndTrips }
{}

/// A law: the emergency brake is commanded more than 10,000 m/h above the limit, until the train stands, and where it
/// rolls back by more than D_NVROLL.
pub fn commands_emergency_where()
    ensures too_fast { FarTooFastBrakes }
    ensures now { FarTooFastNowBrakes }
    ensures rolling { RollingBackBrakes }
{}

/// A law: in Staff Responsible, Unfitted and Shunting the limit is at most the national value of the mode.
pub fn national_speeds_are_kept()
    ensures { NationalSpeedsAreKept }
{}
