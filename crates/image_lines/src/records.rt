//! The records of an image: the line of the image, the records of the journal oldest first, and a last line.

mod content;
mod line;
mod lines;
mod listing;
mod names;
mod parts;
mod place;
mod salvage;
mod source;

pub use line::EventsLine;
pub use listing::report_events;
