//! Laws of the calls.
ghost use Rattle.unit_calls.specs.Endings.{WantsFew, WantsNoMemory};
ghost use Rattle.unit_calls.specs.Formatting.{FormatEmpties};
ghost use Rattle.unit_calls.specs.Histories.{HandedOutIsOnMedium, OnMediumIsHeld};

/// A law: after all requests of a format, carried out in their order, a medium is an empty journal, as
/// `journal::format` leaves it.
pub fn format_empties()
    ensures { FormatEmpties }
{}

/// A law: whatever is called, in whatever order, and wherever power is lost, the caller's medium has all events whose
/// outputs he was handed, as long as he carries out the requests that he says to be done.
pub fn handed_out_is_on_medium()
    ensures { HandedOutIsOnMedium }
{}

/// A law: the definition of `handed_out_is_on_medium` means at least this. Where it is weakened, this law fails.
pub fn on_medium_is_held()
    ensures { OnMediumIsHeld }
{}

/// A law: a power-up ends. Where the caller hands in each sector that is to be read, and no other one, it asks for the
/// first sector, two for each slot, and seven more at most, whatever the medium holds.
pub fn power_up_ends()
    ensures { WantsFew }
{}

/// A law: memory for a power-up is wanted only by the call that begins it, before anything is read.
pub fn only_begin_wants_memory()
    ensures { WantsNoMemory }
{}
