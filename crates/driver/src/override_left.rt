//! What is left of an override.

/// What is left of an override that holds (SUBSET-026, 5.8): it ends with the first of both.
#[derive(Clone, Copy)]
pub struct OverrideLeft {
    /// Of its time, in milliseconds; None where T_NVOVTRP has no end.
    pub time: Option<u64>,
    /// Of its distance, in centimetres.
    pub distance: u64,
}
