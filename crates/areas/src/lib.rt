//! Areas in which a mode is asked for, the level that is announced, and what the driver has to acknowledge (SUBSET-026,
//! 5.9, 5.10 and 3.12.4; when it is asked for and owed: this project's profile).
#![tactic(auto)]

mod acknowledgement;
mod announced_level;
mod announcement;
mod area;
mod areas;
mod description;
mod laws;

pub use acknowledgement::Acknowledgement;
pub use announced_level::AnnouncedLevel;
pub use announcement::Announcement;
pub use area::{Area, NationalSpeeds};
pub use areas::Areas;
pub use laws::{areas_are_met_so, done_so, owed_so, owed_stays};
