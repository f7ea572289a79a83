//! The variables of the ERTMS/ETCS language (SUBSET-026, 7.5.1): one bounded type a variable, with the values of its
//! numbers.
#![tactic(auto)]

mod counter;
mod distance;
mod gradient;
mod group;
mod level;
mod linking;
mod lists;
mod packet_head;
mod restriction;
mod scale;
mod special_distance;
mod special_speed;
mod speed;
mod time;
mod variable;

pub use counter::MessageCounter;
pub use distance::Distance;
pub use gradient::{GradientDirection, Steepness};
pub use group::{Country, Duplicate, GroupIdentity, GroupNumber, PositionInGroup};
pub use level::{AreaMode, Level, StmIdentity};
pub use linking::{LinkOrientation, LinkReaction, LocationAccuracy};
pub use lists::{Iterations, TrainCategory};
pub use packet_head::{PacketLength, PacketNumber, UntestedDirection, ValidityDirection};
pub use restriction::{RestrictionNumber, TrainLengthDelay};
pub use scale::Scale;
pub use special_distance::{OpenLength, StartPlace};
pub use special_speed::{AreaSpeed, ReleaseSpeed, StaticSpeed};
pub use speed::SpeedStep;
pub use time::{OverrideTime, Timer};
pub use variable::{NoValue, Variable, has_number};
