//! The kernel: what is answered after each event, by the whole history of events, and what outlives a loss of power
//! (SUBSET-026; where it leaves a choice, this project's profile). Distances are centimetres, speeds metres per hour,
//! moments milliseconds.
#![tactic(auto)]

mod accepting;
mod carried;
mod causes;
mod closings;
mod commanding;
mod counts;
mod hearing;
mod keeping;
mod laws;
mod limiting;
mod output;
mod parts;
mod position;
mod receiving;
mod showing;
mod sight;
mod state;
mod steps;
mod track;
mod tripping;
mod window;

pub use causes::{BrakeCause, BrakeCauses};
pub use events::{Event, Input, Kept, Output};
pub use laws::{
    brakes_until_revalidated, causes_command, kept_is_the_last, power_up_forgets, trip_brakes,
    trips_have_causes,
};
pub use mode_control::TripCause;
pub use showing::{Acknowledgements, DisplayValues, Motion, Waiting};
pub use state::{State, StateOver};
pub use steps::step;
