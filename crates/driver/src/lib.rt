//! The driver: the data that are entered, which actions are accepted, what they bring about, and whether the train was
//! revalidated since power-up (SUBSET-026, 3.18.3, 4.4, 4.10 and 5.4; the table of actions: this project's profile).
#![tactic(auto)]

mod action;
mod action_kind;
mod action_refusal;
mod action_situation;
mod datum;
mod driver;
mod identity;
mod kept;
mod laws;
mod occasion;
mod override_left;
mod revalidation;
mod running_number;
mod train_data;

pub use action::{Acknowledged, Action, Confirmed};
pub use action_kind::ActionKind;
pub use action_refusal::ActionRefusal;
pub use action_situation::ActionSituation;
pub use datum::Datum;
pub use driver::Driver;
pub use identity::DriverIdentity;
pub use kept::Kept;
pub use laws::{
    nothing_known_is_lost, outstanding_so, overridden_so, revalidated_so, valid_so,
    values_are_the_last_given,
};
pub use occasion::Occasion;
pub use override_left::OverrideLeft;
pub use revalidation::Revalidation;
pub use running_number::RunningNumber;
pub use train_data::TrainData;
