//! Laws: how a mode is left in which the train has to stand.
ghost use Rattle.safety_laws.specs.Modes.{TripIsLeft, FailureStays, StandByIsLeft};

/// A law: but for an overrun, Trip is left only by an acknowledgement at standstill, to Post Trip.
pub fn trip_is_left()
    ensures { TripIsLeft }
{}

/// A law: System Failure is left only by a power-up.
pub fn failure_stays()
    ensures { FailureStays }
{}

/// A law: but for an overrun, Stand By is left only by an accepted Start or choice of Shunting at standstill.
pub fn stand_by_is_left()
    ensures { StandByIsLeft }
{}
