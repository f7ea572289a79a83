//! Where the train must have slowed down or stopped.
use units::{Cm, Mph};

/// A place ahead that a train may reach at no more than a speed; 0 at a place where it must stop (SUBSET-026, 3.13;
/// this project's profile).
#[derive(Clone, Copy)]
pub struct Target {
    /// The place, in centimetres of the life.
    pub place: Cm,
    /// The greatest speed there, in metres per hour.
    pub speed: Mph,
}
