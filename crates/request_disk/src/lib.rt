//! A disk for a medium that only its maker's own code can reach (this project's profile): it hands out the calls that
//! change the medium, in order, and holds some of its sectors.
#![tactic(auto)]

mod known;
mod lent;
mod medium;
mod requesting;
mod requests;

pub use known::MOST_KNOWN;
pub use lent::LentDisk;
pub use requesting::{MOST_BYTES, MOST_REQUESTS, RequestDisk};
