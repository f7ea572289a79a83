//! Laws: that a train can stop and slow down where it has to.
ghost use Rattle.safety_laws.specs.Stopping.{StopsAtLocation, HaltsAtLocation, HaltsAtEnd, KeepsSpeedsAhead, PassesByAtMost};

/// A law: in Full Supervision and On Sight, while no speed is allowed at the end of authority, a train at the limit can
/// still stop at the supervised location.
pub fn stops_at_location()
    ensures { StopsAtLocation }
{}

/// A law: in Full Supervision and On Sight, while no speed is allowed at the end of authority (V_LOA), a train that brakes
/// from a speed up to the limit stands at the supervised location at the latest.
pub fn halts_at_location()
    ensures { HaltsAtLocation }
{}

/// A law: where no speed is allowed at the end of authority (V_LOA) and there is no release speed, such a train stands at
/// that end at the latest.
pub fn halts_at_end()
    ensures { HaltsAtEnd }
{}

/// A law: a train that brakes from a speed up to the limit meets no speed that the track ahead asks for faster than
/// that.
pub fn keeps_speeds_ahead()
    ensures { KeepsSpeedsAhead }
{}

/// A law: a train that brakes from a margin above the limit passes the supervised location by so many centimetres at the
/// most.
pub fn passes_by_at_most()
    ensures { PassesByAtMost }
{}
