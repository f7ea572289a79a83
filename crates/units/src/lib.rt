//! Quantities of a journey within their limits: centimetres, metres per hour, milliseconds, per mille;
//! stretches of track; and the refusal of memory that all crates above share.
#![tactic(auto)]

mod cm;
mod group_place;
mod length;
mod movement;
mod mph;
mod ms;
mod no_memory;
mod permille;
mod reach;
mod stretch;

pub use cm::Cm;
pub use group_place::GroupPlace;
pub use length::{FARTHEST, Length};
pub use movement::Movement;
pub use mph::Mph;
pub use ms::{LONGEST_LIFE, Ms};
pub use no_memory::NoMemory;
pub use permille::Permille;
pub use reach::Reach;
pub use stretch::Stretch;
