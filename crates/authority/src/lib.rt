//! The movement authority and its timers: up to where the train may go, and how fast it may be there (SUBSET-026, 3.8;
//! when timers run out and which release speed holds: this project's profile).
#![tactic(auto)]

mod accepting;
mod answers;
mod authority;
mod laws;
mod stored;
mod timers;

pub use answers::{End, Release};
pub use authority::Authority;
pub use laws::{
    acceptance_forgets, end_is_the_nearest, end_never_moves_forward, sections_run_out, timers_start,
};
