//! What is known of a train's brakes: how much they slow it, and when they act (this project's profile).
#![tactic(auto)]

mod brakes;
mod deceleration;
mod reaction;

pub use brakes::Brakes;
pub use deceleration::{Deceleration, slowing};
pub use reaction::{Reaction, reaction_way};
