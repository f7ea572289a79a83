//! The speed that a train may run, by the mode, over what is supervised, and what decides it: a national value, a speed
//! over the train, a target ahead, or the release speed (SUBSET-026, 3.11 to 3.13 and 4.4; which of those of equal
//! force is named: this project's profile). Places are centimetres, speeds metres per hour.
#![tactic(auto)]

mod ahead;
mod alike;
mod by_mode;
mod cause;
mod cause_by_mode;
mod holding;
mod laws;
mod over;
mod permitted;
mod release;
mod steady;
mod supervised;
mod window;

pub use by_mode::{limit, values};
pub use cause::{LimitCause, NationalValue, OverTrain, SpeedCause, TargetAhead, TargetKind};
pub use cause_by_mode::limit_cause;
pub use laws::limit_is_within_maximum;
pub use over::{over_train, restriction_over};
pub use permitted::{along, bounds};
pub use steady::SteadyLimit;
pub use supervised::supervised_cause;
