//! The onboard unit: events are accepted, put on a disk, and only then are their outputs released; wherever power is
//! lost, the next power-up finds them again.
#![tactic(auto)]

mod accepting;
mod errors;
mod flushing;
mod heap_unit;
mod life;
mod onboard;
mod released;
mod unit_place;

pub use errors::{AcceptError, FlushError};
pub use heap_unit::HeapUnit;
pub use onboard::Onboard;
pub use released::Released;
pub use unit_place::UnitPlace;
pub use unit_start::OpenError;
