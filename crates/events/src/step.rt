//! The steps of a life: inputs and flushes.
use crate::Input;

/// How many events may be pending, as many as one block holds (this project's profile).
pub const MOST_PENDING: usize = 8;

/// What happens in a life (this project's profile).
#[derive(Drop)]
pub enum Step {
    /// The unit is handed this input.
    Accept(Input),
    /// What is pending is put on the disk, in one block, and then released.
    Flush,
}
