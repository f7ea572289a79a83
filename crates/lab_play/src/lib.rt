//! The command `play` of `etcs_lab`: plays scenarios, one a line or one a file, and prints a result for each (this
//! project's profile).
#![tactic(auto)]

mod digits;
mod faults;
mod image_file;
mod line_input;
mod play;
mod player;
mod request;
mod result_line;

pub use digits::digits_of;
pub use faults::{FaultPlace, fault_place};
pub use play::{PlayArgs, play_scenarios};
