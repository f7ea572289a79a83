//! Why calls are refused (this project's profile).
use thiserror::Error;

/// Why a flush wasn't prepared.
#[derive(Clone, Copy, Debug, Error)]
pub enum PrepareError {
    /// The medium failed, or the unit did; open again.
    #[error("Failed")]
    Failed,
    /// Requests of the flush before, or of the power-up, aren't released yet.
    #[error("RequestsOwed")]
    RequestsOwed,
    /// The block of the greatest number has the last number, 2^40; nothing is asked for.
    #[error("WornOut")]
    WornOut,
    /// The gate of the slot that the block goes into isn't known; its sector is wanted.
    #[error("SectorWanted")]
    SectorWanted,
}

/// Why nothing was released.
#[derive(Clone, Copy, Debug, Error)]
pub enum ReleaseError {
    /// The medium failed, or the unit did; open again.
    #[error("Failed")]
    Failed,
    /// Not all requests are done.
    #[error("RequestsOwed")]
    RequestsOwed,
}
