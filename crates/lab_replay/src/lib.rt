//! Replays a journal, life after life, and hands a line for each finding to a sink, which prints it as JSON or for people
//! (this project's profile). It writes nothing to the disk. Events are numbered from 0, blocks from 1.
#![tactic(auto)]

mod course;
mod line;
mod serializing;
mod text;
mod visiting;
mod walk;

pub use line::{
    Answer, EndLine, HeadLine, LostBlock, Outcome, RecordLine, ReplayLine, StretchLine, Verdict,
};
pub use lives::WalkError;
pub use walk::replay;
