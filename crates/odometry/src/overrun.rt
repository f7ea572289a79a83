//! The refusal of a movement or a fix that leads beyond 2^40 cm.
use thiserror::Error;

/// The path of the life, the estimate or the place of a group would lie beyond 2^40 cm (this project's profile).
#[derive(Clone, Copy, Debug, Error)]
#[error("a place lies too far")]
pub struct Overrun;
