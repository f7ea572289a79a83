//! What all calls from C have in common (this project's profile): the number of the interface, the numbers that stand for
//! what isn't a number, and what a power-up keeps.
#![tactic(auto)]

mod interface;
mod kept_items;
mod limits;
mod national_items;
mod options;
mod outputs;

pub use interface::{ABI, abi_call};
pub use kept_items::{EtcsKept, EtcsTrain, kept_reported, status_number, train_reported};
pub use limits::limit_number;
pub use national_items::EtcsNational;
pub use options::{flag, or_zero, place_or_zero};
pub use outputs::{brake_number, level_number};
