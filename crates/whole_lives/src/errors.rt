//! Why a life ends before its last step (this project's profile).

use onboard::{AcceptError, FlushError};
use unit_start::OpenError;

/// Why a life ended before its last step, with the number of the step, from 0 on.
#[derive(Clone, Copy, Debug, thiserror::Error)]
pub enum LiveError {
    /// It didn't begin, for this reason.
    #[error("{0}")]
    Open(OpenError),
    /// The input of this step wasn't accepted.
    #[error("step {0} {1}")]
    Accept(usize, AcceptError),
    /// The flush of this step released nothing.
    #[error("step {0} {1}")]
    Flush(usize, FlushError),
    /// There was no space for the eight outputs that the flush of this step may release, so that it didn't begin.
    #[error("step {0} NoMemory")]
    NoMemory(usize),
}
