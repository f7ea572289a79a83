//! National values: those in force with their countries, and those that are announced (SUBSET-026, 3.18.2).
#![tactic(auto)]

mod announcement;
mod country_values;
mod national;
mod override_duration;
mod staff_responsible_distance;
mod values;

pub use country_values::{CountryValues, MOST_COUNTRIES};
pub use national::National;
pub use override_duration::OverrideDuration;
pub use staff_responsible_distance::StaffResponsibleDistance;
pub use values::Values;
