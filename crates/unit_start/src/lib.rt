//! What a power-up finds on a disk and puts there, and the records of events.
#![tactic(auto)]

mod errors;
mod records;
mod starting;

pub use errors::OpenError;
pub use records::{kept_after, no_moment, place_after, power_up_record, recorded};
pub use starting::{cold_of, power_up_after, refused, state_before};
