//! The text that programs print: a name for each mode, level and brake, a line for each output, a text in pieces for
//! people or as JSON (this project's profile), and the exit status that goes with it.
#![tactic(auto)]

mod alike;
mod description;
mod line;
mod output_line;
mod output_names;
mod piece;
mod status;
mod writing;

pub use alike::are_same;
pub use description::describe;
pub use line::append;
pub use output_line::OutputLines;
pub use output_names::{brake_name, level_name, mode_name};
pub use piece::{Form, Piece, known};
pub use status::Status;
pub use writing::{write_parts, write_pieces};
