//! The statuses of the calls from C (`enum etcs_unit_status`).

/// The call did what it was asked.
pub(crate) const DONE: u32 = 0;

/// The list ends before the index.
pub(crate) const END: u32 = 38;

/// A number is outside its limits.
pub(crate) const OUT_OF_RANGE: u32 = 255;
