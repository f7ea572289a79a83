//! Why a unit brakes: a life is run through the kernel again, and after each event it is known which causes hold and
//! from which event on (this project's profile). Distances are centimetres, speeds metres per hour; events are numbered
//! from 0, over all lives.
#![tactic(auto)]

mod cause_texts;
mod closings;
mod group_texts;
mod limit_texts;
mod reasoning;
mod runs;
mod trips;

pub use cause_texts::{cause_name, ending, sentence};
pub use closings::GroupsReport;
pub use group_texts::{
    GroupKind, GroupReport, group_name, group_reported, group_section, group_sentence, is_accepted,
};
pub use limit_texts::{
    LimitKind, LimitReport, limit_name, limit_reported, limit_section, limit_sentence,
};
pub use reasoning::Reasoning;
pub use runs::Runs;
pub use trips::{TripReport, trip_name, trip_section, trip_sentence};
