//! Events that aren't replayed, and why.

use lives::Unknown;

/// Events of one life that follow one another, by their numbers, from the first to the last (this project's profile).
#[derive(Clone, Copy)]
pub struct Stretch {
    /// The number of the life, as the heads say it.
    pub life: u32,
    /// The first event.
    pub first: u64,
    /// The last event.
    pub last: u64,
}

/// Why events aren't replayed (this project's profile).
#[derive(Clone, Copy)]
pub enum Reason {
    /// The power-up of their life, or the head before it, is not retained any more.
    BeforeOldest,
    /// A block before them can't be read, or events are missing before them.
    Gap,
    /// Their life begins within a block after events that aren't replayed, so that no head says what was kept then.
    WithinBlock,
    /// They come after a record that differs.
    AfterDifference,
}

impl Reason {
    /// The reason for a life of which it isn't known what was kept before it.
    pub fn of(unknown: Unknown) -> Reason {
        match unknown {
            Unknown::BeforeOldest => Reason::BeforeOldest,
            Unknown::Gap => Reason::Gap,
            Unknown::WithinBlock => Reason::WithinBlock,
        }
    }
}
