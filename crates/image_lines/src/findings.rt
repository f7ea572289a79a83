//! What an examination finds: each slot, what is lost, what contradicts, the journal and a power-up.

mod gaps;
mod image;
mod json;
mod names;
mod power_up;
mod slots;
mod text;
mod verdict;

pub use image::FileFacts;
pub use json::JsonExamination;
pub use verdict::{ExamineLine, Verdict, examine};
