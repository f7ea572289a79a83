//! Linking: the balise groups that a list of links announces, and what follows where one is read, is broken or is
//! missed (SUBSET-026, 3.4.4 and 3.16.2).
#![tactic(auto)]

mod announcement;
mod effect;
mod judgement;
mod links;

pub use announcement::Announcement;
pub use effect::Effect;
pub use judgement::{GroupRead, Judgement, Verdict};
pub use links::{Links, MOST_ANNOUNCED};
