//! What calls answer.
ghost use Rattle.std.specs.Prelude.{◌≡◌};
ghost use Rattle.image_calls.specs.Answers.{answer_number};

/// What a call answers (this project's profile). But for `Done`, and where it says otherwise, nothing is written.
#[derive(Clone, Copy)]
pub enum Answer {
    /// It is done.
    Done = 0,
    /// Memory was refused.
    NoMemory = 12,
    /// The first sector isn't that of a journal, or there is none.
    NotFormatted = 31,
    /// The size isn't that of the slots, or a block of the journal can't be read.
    Damaged = 32,
    /// The image has no such slot with all its sectors.
    NoSuchSlot = 35,
    /// No slot holds the block of this number.
    NoSuchBlock = 36,
    /// The block has fewer records.
    NoSuchRecord = 37,
    /// The journal ends.
    AtEnd = 38,
    /// The life of the event can't be run again.
    NotReplayed = 39,
    /// The journal wasn't opened.
    NotOpen = 250,
    /// The header is of another interface than the library.
    OtherAbi = 254,
    /// A number is outside its limits.
    OutOfRange = 255,
}

impl Answer {
    /// The number by which it is reported.
    pub fn number(self) -> u32
        ensures { result ≡ answer_number self }
    {
        self as u32
    }
}
