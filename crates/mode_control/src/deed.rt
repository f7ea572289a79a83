//! What the driver did, and on which occasion.
use driver::{Action, Occasion};

/// An action of the driver that was accepted (this project's profile).
#[derive(Clone, Copy)]
pub struct Deed {
    /// What was done.
    pub action: Action,
    /// On which occasion.
    pub occasion: Occasion,
}
