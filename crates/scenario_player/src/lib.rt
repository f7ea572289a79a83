//! Scenarios that are played on a journal in memory, one life after the other: what the unit answers, how each life
//! ends, and the bytes of the journal image (this project's profile).
#![tactic(auto)]

mod error;
mod image;
mod life;
mod player;

pub use error::PlayError;
pub use image::image_of;
pub use life::{Played, play_first};
pub use onboard::Released;
pub use player::{calls_for, play, play_after};
pub use whole_lives::LiveError;
