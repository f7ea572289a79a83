//! What a unit knows of its life now.
use events::Estimate;
use units::Ms;

/// What is known of a life after all inputs that were taken (this project's profile). Lengths are in centimetres.
#[derive(Clone, Copy)]
pub struct LifeNow {
    /// Where the train's front is thought to be, from where the life began.
    pub estimate: Estimate,
    /// How far that may be wrong to either side.
    pub uncertainty: u64,
    /// The last moment that the clock reported, in milliseconds; 0 before one.
    pub moment: Ms,
    /// How many events are pending.
    pub pending: usize,
}
