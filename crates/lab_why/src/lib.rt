//! Why each event of a journal was answered so: lives are run again, and a line of an event has the causes of its brake
//! and what decides its limit; and the life of a scenario that is played, with the same of each output (this project's
//! profile). A sink prints the lines as JSON or for people. It writes nothing to the disk. Events are numbered from 0,
//! blocks from 1.
#![tactic(auto)]

mod course;
mod demanding;
mod ends;
mod group;
mod known;
mod known_lists;
mod line;
mod played;
mod playing;
mod reporting;
mod serializing;
mod text;
mod visiting;
mod walk;

pub use course::Options;
pub use group::{GroupLine, PacketLine, Unused};
pub use known::{AuthorityLine, FrontLine, GroupName, KnownLine, LevelLine, TrainLine};
pub use known_lists::{AreaLine, LinkLine, RestrictionLine};
pub use line::{Answer, Causes, EventLine, WhyLine};
pub use lives::{LateError, WalkError};
pub use played::{
    DoneLine, LifeEnd, OutputLine, PlayLine, PlayedOutput, Scenario, ScenarioLine, StoppedLine,
};
pub use playing::{PlayedLife, play};
pub use serializing::CauseRuns;
pub use walk::{Walked, describe_why};
pub use whole_lives::LiveError;
