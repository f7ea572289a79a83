//! Law: what is so where no brake is commanded.
ghost use Rattle.safety_laws.specs.Brakes.{NoBrakeOnlyWhere};

/// A law: all that is so where no brake is commanded, in one record.
pub fn no_brake_only_where()
    ensures { NoBrakeOnlyWhere }
{}
