//! What the track and the authority ask of a train's speed at each centimetre (SUBSET-026, 3.11; this project's
//! profile).
#![tactic(auto)]

mod ahead;
mod limit;
mod limiting;
mod nearest;
mod reported;
mod short_speed;
mod speeds_ahead;
mod starts;
mod targets;
mod track;

pub use ahead::Ahead;
pub use limit::{Bounds, limit_on};
pub use reported::{CategorySpeeds, ProfileReport, gradients, static_speeds};
pub use short_speed::ShortSpeed;
pub use starts::{first_in_area, first_target, next_after, static_target};
pub use targets::Targets;
pub use track::Track;
