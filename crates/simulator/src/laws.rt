//! What follows from the definitions alone.
ghost use Rattle.simulator.specs.Laws.{NotJsonExactly, DescribesOrFails, OneAnswer};

/// A law: NotJson is the fault of exactly those texts that have no reading as a JSON value.
pub fn not_json_exactly()
    ensures { NotJsonExactly }
{}

/// A law: each text reports a life, or has a first fault.
pub fn describes_or_fails()
    ensures { DescribesOrFails }
{}

/// A law: a text reports one life and has no fault, or has one fault and reports none.
pub fn one_answer()
    ensures { OneAnswer }
{}
