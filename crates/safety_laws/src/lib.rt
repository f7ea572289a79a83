//! What a safety assessor asks for, proved of the definitions of the kernel: laws of every list of events, of every life,
//! and of the outputs that a unit releases (SUBSET-026; where it leaves a choice, this project's profile). Distances are centimetres, speeds metres per
//! hour, moments milliseconds.
#![tactic(auto)]

mod approaching;
mod ends;
mod intervening;
mod keeping;
mod meanings;
mod modes;
mod outputs;
mod restricting;
mod running;
mod stopping;
mod unbraked;

pub use approaching::{release_rule, starts_decide};
pub use ends::end_never_moves_forward;
pub use intervening::{commands_emergency_where, national_speeds_are_kept, passing_end_trips};
pub use keeping::level_and_position_over_all;
pub use meanings::promises_keep_their_meaning;
pub use modes::{failure_stays, stand_by_is_left, trip_is_left};
pub use outputs::{released_brakes_for_trips, released_halts};
pub use restricting::{nearer_fits_no_more, restrictions_never_raise};
pub use running::{outstanding_trip_brakes, runs_by_authority, runs_by_valid_data};
pub use stopping::{
    halts_at_end, halts_at_location, keeps_speeds_ahead, passes_by_at_most, stops_at_location,
};
pub use unbraked::no_brake_only_where;
