//! The steps of a scenario: driving, an input, or a flush.
use crate::distance::Distance;
use events::Input;
use units::Mph;

/// What a step of a scenario asks for (this project's profile).
#[derive(Drop)]
pub enum StepKind {
    /// The train drives so far, in centimetres, at a speed in metres per hour.
    Drive(Distance, Mph),
    /// This input comes.
    Happens(Input),
    /// What is pending is put on the disk and released.
    Flush,
}
