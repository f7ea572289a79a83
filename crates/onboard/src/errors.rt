//! Why calls are refused (this project's profile).
ghost use Rattle.std.specs.Prelude.{◌≡◌};
ghost use Rattle.onboard.specs.Numbers.{accept_number, accept_name, flush_number, flush_name};

use thiserror::Error;

/// Why an input wasn't accepted.
#[derive(Clone, Copy, Debug, Error)]
pub enum AcceptError {
    /// The device failed in a flush; open again.
    #[error("Failed")]
    Failed = 13,
    /// Eight events are pending, as many as one block holds; flush first.
    #[error("PendingFull")]
    PendingFull = 10,
    /// Its moment, in milliseconds, lies before the last one of this life.
    #[error("ClockBack")]
    ClockBack = 11,
    /// Memory was refused for the event; nothing changed.
    #[error("NoMemory")]
    NoMemory = 12,
}

impl AcceptError {
    /// The number by which the refusal is reported.
    pub fn number(self) -> u8
        ensures { result ≡ accept_number self }
    {
        self as u8
    }

    /// The name by which the refusal is reported.
    pub fn name(self) -> &'static str
        ensures { result.now ≡ accept_name self }
    {
        match self {
            AcceptError::Failed => "Failed",
            AcceptError::PendingFull => "PendingFull",
            AcceptError::ClockBack => "ClockBack",
            AcceptError::NoMemory => "NoMemory",
        }
    }
}

/// Why nothing was released.
#[derive(Clone, Copy, Debug, Error)]
pub enum FlushError {
    /// The device failed in an earlier flush; open again.
    #[error("Failed")]
    Failed = 21,
    /// The block of the greatest number has the last number, 2^40; nothing was written.
    #[error("WornOut")]
    WornOut = 23,
    /// The device failed in this call: whether the pending events are on the disk isn't known, until it is opened
    /// again.
    #[error("DeviceFault")]
    DeviceFault = 20,
}

impl FlushError {
    /// The number by which the refusal is reported.
    pub fn number(self) -> u8
        ensures { result ≡ flush_number self }
    {
        self as u8
    }

    /// The name by which the refusal is reported.
    pub fn name(self) -> &'static str
        ensures { result.now ≡ flush_name self }
    {
        match self {
            FlushError::Failed => "Failed",
            FlushError::WornOut => "WornOut",
            FlushError::DeviceFault => "DeviceFault",
        }
    }
}
