//! What calls answer.
ghost use Rattle.std.specs.Prelude.{◌≡◌};
ghost use Rattle.unit_calls.specs.Statuses.{status_number, is_done, of_open, of_accept, of_prepare, of_release};

use onboard::{AcceptError, OpenError};
use relayed_unit::{PrepareError, ReleaseError};

/// What a call answers (this project's profile). All but `Done` mean the emergency brake.
#[derive(Clone, Copy)]
pub enum Status {
    /// It is done.
    Done = 0,
    /// No unit was opened: the space of the disk that hands out its requests was used up. It never is.
    OpenDeviceFault = 1,
    /// No unit was opened: the first sector isn't that of a journal, or there is none.
    NotFormatted = 2,
    /// No unit was opened: the size isn't that of the slots, or the newest block isn't readable.
    Damaged = 3,
    /// No unit was opened: memory was refused.
    OpenNoMemory = 4,
    /// No unit was opened: there is no block number after 2^40.
    OpenWornOut = 6,
    /// Eight events are pending.
    PendingFull = 10,
    /// The moment lies before the last one of this life.
    ClockBack = 11,
    /// Memory was refused for the event.
    NoMemory = 12,
    /// No input is taken any more, since the medium failed.
    InputFailed = 13,
    /// Nothing is prepared or released any more, since the medium failed.
    Failed = 21,
    /// Requests aren't done, or not released yet.
    RequestsOwed = 22,
    /// There is no block number after 2^40.
    WornOut = 23,
    /// The number of slots isn't 2 to 1,048,576.
    BadSlots = 41,
    /// The newest event isn't released yet.
    NotReleased = 247,
    /// Nothing is to be done on the medium.
    NoSuchRequest = 249,
    /// No unit is open.
    NotOpen = 250,
    /// One is open already, or its power-up is under way.
    IsOpen = 251,
    /// A buffer is too small.
    NoRoom = 252,
    /// The header is of another interface than the library.
    OtherAbi = 254,
    /// A number or a length is outside its limits.
    OutOfRange = 255,
}

impl Status {
    /// The number by which it is reported.
    pub fn number(self) -> u32
        ensures { result ≡ status_number self }
    {
        self as u32
    }

    /// Whether it was done.
    pub fn is_done(self) -> bool
        ensures { result ≡ is_done self }
    {
        self.number() == 0
    }
}

/// Of an opening that was refused.
pub fn of_open(error: OpenError) -> Status
    ensures { result ≡ of_open error }
{
    match error {
        OpenError::DeviceFault => Status::OpenDeviceFault,
        OpenError::NotFormatted => Status::NotFormatted,
        OpenError::Damaged => Status::Damaged,
        OpenError::NoMemory => Status::OpenNoMemory,
        OpenError::WornOut => Status::OpenWornOut,
    }
}

/// Of an input.
pub fn of_accept(reported: Result<(), AcceptError>) -> Status
    ensures { result ≡ of_accept reported }
{
    match reported {
        Ok(()) => Status::Done,
        Err(AcceptError::Failed) => Status::InputFailed,
        Err(AcceptError::PendingFull) => Status::PendingFull,
        Err(AcceptError::ClockBack) => Status::ClockBack,
        Err(AcceptError::NoMemory) => Status::NoMemory,
    }
}

/// Of a preparation: Done also where a sector has to be read first, which is the next request then.
pub fn of_prepare(reported: Result<(), PrepareError>) -> Status
    ensures { result ≡ of_prepare reported }
{
    match reported {
        Ok(()) => Status::Done,
        Err(PrepareError::Failed) => Status::Failed,
        Err(PrepareError::RequestsOwed) => Status::RequestsOwed,
        Err(PrepareError::WornOut) => Status::WornOut,
        Err(PrepareError::SectorWanted) => Status::Done,
    }
}

/// Of a release that was refused.
pub fn of_release(error: ReleaseError) -> Status
    ensures { result ≡ of_release error }
{
    match error {
        ReleaseError::Failed => Status::Failed,
        ReleaseError::RequestsOwed => Status::RequestsOwed,
    }
}
