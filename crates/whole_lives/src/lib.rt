//! Whole lives of a unit: what their steps leave on a disk and release, and the laws of any number of them.
#![tactic(auto)]

mod errors;
mod laws;
mod living;
mod steps;

pub use errors::LiveError;
pub use events::Step;
pub use laws::{
    commands_emergency_until_revalidated, forgets_across, formatted_is_ready, images_are_endless,
    lives_compose, one_cause, others_have_space, outlives_damage, releases_stay, stands_by,
};
pub use living::live;
pub use steps::run;
