//! What the program shows of a telegram.
#![tactic(auto)]

mod fields;
mod report;
mod text;

pub use fields::{FieldList, FieldValue, fields_into, header_into};
pub use text::decode_text;
