//! Laws of sections that run out, timers that start, and the end of authority.
ghost use Rattle.authority.specs.Laws.{SectionsRunOut, TimersStart, EndIsTheNearest, EndNeverMovesForward, AcceptanceForgets};

/// A law: a section has run out exactly where its time is over and the minimum safe front, whenever it was seen before
/// that, was short of the stop place.
pub fn sections_run_out()
    ensures { SectionsRunOut }
{}

/// A law: a timer that starts at a place does so exactly when the maximum safe front is first seen at or above it.
pub fn timers_start()
    ensures { TimersStart }
{}

/// A law: the end is at the nearest of the end of the last section and the entries of the sections that have run out.
pub fn end_is_the_nearest()
    ensures { EndIsTheNearest }
{}

/// A law: until the next acceptance the end never moves forward.
pub fn end_never_moves_forward()
    ensures { EndNeverMovesForward }
{}

/// A law: nothing before an acceptance matters.
pub fn acceptance_forgets()
    ensures { AcceptanceForgets }
{}
