//! What the program does with images and scenarios (this project's profile): makes an image, runs a life on it and
//! writes what was released, and lists its journal.
#![tactic(auto)]

mod images;
mod lives;
mod reasons;
mod refusals;
mod scenarios;
mod stops;

pub use images::{Image, format_disk, format_image, list_disk, list_image};
pub use lives::run_life;
pub use reasons::{Reason, of_stop};
pub use scenarios::{play, run_scenario};
