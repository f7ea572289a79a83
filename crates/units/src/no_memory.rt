//! The error that all crates above share for refused memory, made from the allocator's own.
use std::alloc::{AllocError, AllocFailed};
use thiserror::Error;

/// Memory was asked for and refused.
#[derive(Clone, Copy, Debug, Error)]
#[error("no memory is left")]
pub struct NoMemory;

impl From<AllocError> for NoMemory {
    fn from(_: AllocError) -> Self {
        NoMemory
    }
}

impl<T: Drop> From<AllocFailed<T>> for NoMemory {
    fn from(_: AllocFailed<T>) -> Self {
        NoMemory
    }
}
