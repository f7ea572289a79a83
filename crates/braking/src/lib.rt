//! The greatest speed from which a train can still brake (this project's profile).
#![tactic(auto)]

mod approach;
mod seeking;
mod slowing;
mod speeds;
mod stretch;
mod summed;
mod target;

pub use approach::{Approach, permitted};
pub use brakes::{Brakes, Deceleration, Reaction};
pub use speeds::fits;
pub use target::Target;
