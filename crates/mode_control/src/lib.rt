//! The supervision of the train: which mode it is in, what the driver does and has to acknowledge, for every list of
//! events of one life, over what the track sends (SUBSET-026, 4 and 5; the order of one event: this project's profile).
//! Distances are centimetres, speeds metres per hour, moments milliseconds.
#![tactic(auto)]

mod acknowledging;
mod acting;
mod calls;
mod closings;
mod conditions;
mod deed;
mod knowing;
mod parts;
mod receiving;
mod seeing;
mod state;
mod tripping;
mod turning;

pub use state::{Supervision, SupervisionOver};
pub use tripping::TripCause;
