//! A disk over a file: `FileDisk` meets the model of a device over each file that has the five calls of `RawFile`.
#![tactic(auto)]

mod filedisk;
mod honest;
mod moment;
mod raw;
mod readonly;
mod syncing;
mod system;
mod whole;

pub use filedisk::FileDisk;
pub use honest::HonestFile;
pub use raw::RawFile;
pub use readonly::{ReadError, ReadOnlyFile};
pub use whole::read_all;
