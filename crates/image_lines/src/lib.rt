//! What a journal image holds, as typed lines that are handed to a sink (this project's profile; `docs/reference/json.md`): an
//! examination, its records, and the values that these and other lines share. Nothing is written to the image.
#![tactic(auto)]

mod demand;
mod description;
mod findings;
mod hex_text;
mod image_ring;
mod kept;
mod records;
mod sink;
mod stretch;
mod telegram_object;
mod values;

pub use demand::{DemandLine, Train, demand_lines};
pub use description::{LengthText, PlaceText, SpeedText, describe_lines, describe_value};
pub use findings::{ExamineLine, FileFacts, JsonExamination, Verdict, examine};
pub use kept::{KeptValues, NationalObject, Status, TrainObject};
pub use records::{EventsLine, report_events};
pub use sink::{JsonLines, LineSink, TextLines};
pub use stretch::{Reason, Stretch};
pub use telegram_object::{Decoded, decoded_of};
pub use values::{
    cold_name, named_indications, write_brake, write_indications, write_level, write_mode,
};
