//! The simulator: what the text of a scenario means for the onboard unit (this project's profile): the balises that lie
//! on its track, and the inputs and flushes that each step of a life adds. Distances are centimetres, speeds metres per
//! hour, moments milliseconds.
#![tactic(auto)]

mod actions;
mod asking;
mod balise;
mod distance;
mod driving;
mod ends;
mod fault;
mod groups;
mod laws;
mod lives;
mod parts;
mod reading;
mod shapes;
mod step_kinds;
mod telegrams;
mod track;
mod values;

pub use balise::Balise;
pub use distance::Distance;
pub use driving::Course;
pub use fault::ScenarioFault;
pub use laws::{describes_or_fails, not_json_exactly, one_answer};
pub use lives::life_of;
pub use parts::{fault_of_cold, fault_of_group, fault_of_step};
pub use reading::{Scenario, ends_of, events_of};
pub use step_kinds::StepKind;
pub use track::Track;
