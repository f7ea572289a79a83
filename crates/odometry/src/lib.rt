//! Odometry: where the train's front is, by the movements of the odometer and the fixes that balise groups give,
//! and how far that may be wrong (this project's profile).
#![tactic(auto)]

mod earlier;
mod fix;
mod overrun;
mod place;
mod sums;

pub use earlier::EarlierPlace;
pub use fix::Fix;
pub use overrun::Overrun;
pub use place::Place;
pub use sums::Sums;
