//! Laws: what a train runs by, and a trip that isn't acknowledged.
ghost use Rattle.safety_laws.specs.Running.{RunsByValidData, RunsByAuthority, OutstandingTripBrakes};

/// A law: in each mode in which a train runs by its data, and in those that follow a trip, they are valid.
pub fn runs_by_valid_data()
    ensures { RunsByValidData }
{}

/// A law: in Full Supervision and On Sight a movement authority is stored.
pub fn runs_by_authority()
    ensures { RunsByAuthority }
{}

/// A law: while a trip isn't acknowledged, the emergency brake is commanded, over any loss of power.
pub fn outstanding_trip_brakes()
    ensures { OutstandingTripBrakes }
{}
