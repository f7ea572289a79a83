//! Modes: which one an event leads to, what each keeps of what is known, and which packets it uses (SUBSET-026, 4; the
//! rows of all three tables: this project's profile).
#![tactic(auto)]

mod conditions;
mod laws;
mod level;
mod mode;
mod packets;
mod rows;
mod statuses;

pub use conditions::Conditions;
pub use laws::{areas_turn_by_their_rows, kept_is_never_lost};
pub use level::TrainLevel;
pub use mode::Mode;
pub use packets::uses;
pub use rows::next_mode;
pub use statuses::{Cold, Fate, Item, power_up_status, status_on};
