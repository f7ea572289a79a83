//! What a program reads from its process before it opens a file: its standard streams, and its command line, parsed by
//! `clap`; and how `etcs_lab` ends (this project's profile).
#![tactic(auto)]

mod adding;
mod etcs;
mod lab;
mod lab_app;
pub mod lab_status;
mod matched;
mod process;
mod version;

pub use etcs::{EtcsArgsError, EtcsCommand, parse_etcs};
pub use lab::{LabCommand, LabImage, parse_lab};
pub use process::{args_of, take_standard_streams};
