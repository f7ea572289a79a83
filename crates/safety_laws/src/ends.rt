//! Law: the end of the authority.
ghost use Rattle.safety_laws.specs.Ends.{EndNeverMovesForward};

/// A law: the end of the authority never moves forward where no new authority is used.
pub fn end_never_moves_forward()
    ensures { EndNeverMovesForward }
{}
