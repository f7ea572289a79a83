//! A unit whose medium only its maker's own code can reach (this project's profile): a flush answers the requests that
//! the maker carries out, and its outputs are held back until he says that all are done. It powers up sector by sector.
#![tactic(auto)]

mod errors;
mod life_now;
mod looking;
mod moored;
mod powering_up;
mod relayed;

pub use errors::{PrepareError, ReleaseError};
pub use life_now::LifeNow;
pub use moored::Moored;
pub use powering_up::{Going, UnitOpening};
pub use relayed::RelayedUnit;
