//! What comes into the kernel, what it answers, and what it keeps over a loss of power (this project's profile).
//! Distances are centimetres, speeds metres per hour, moments milliseconds.
#![tactic(auto)]

mod estimate;
mod input;
mod kept;
mod output;
mod position;
mod step;
mod telegram_bytes;

pub use estimate::Estimate;
pub use input::{Event, Input, Reading};
pub use kept::Kept;
pub use output::{Brake, Indications, Output};
pub use position::{FARTHEST_OFFSET, Position};
pub use step::{MOST_PENDING, Step};
pub use telegram_bytes::TelegramBytes;
