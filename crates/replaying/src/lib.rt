//! Replay: the events of a journal are run through the kernel again, and what the blocks say about each is compared with
//! what the kernel answers (this project's profile). Moments are milliseconds, places centimetres, speeds metres per
//! hour; events are numbered from 0, blocks from 1.
#![tactic(auto)]

mod comparing;
mod description;
mod differences;
mod following;
mod heads;
mod judging;
mod keeping;
mod laws;
mod replay;

pub use differences::{KeptField, RecordField};
pub use following::Found;
pub use heads::{HeadFound, compare_head};
pub use judging::Judged;
pub use laws::{each_head_is_led, units_agree, verdicts_exclude};
pub use replay::Replay;
