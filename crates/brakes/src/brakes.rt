//! A train's deceleration and reaction time together.
use crate::{Deceleration, Reaction};

/// What is known of a train's brakes (this project's profile).
#[derive(Clone, Copy)]
pub struct Brakes {
    /// The deceleration on level track, in cm/s^2.
    pub deceleration: Deceleration,
    /// The time from an order to brake until the brakes act, in milliseconds.
    pub reaction: Reaction,
}
