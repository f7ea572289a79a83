//! Why no life begins (this project's profile).
ghost use Rattle.std.specs.Prelude.{◌≡◌};
ghost use Rattle.unit_start.specs.Numbers.{open_number, open_name};

use thiserror::Error;

/// Why no life began.
#[derive(Clone, Copy, Debug, Error)]
pub enum OpenError {
    /// The device failed in this call.
    #[error("DeviceFault")]
    DeviceFault = 1,
    /// The first sector isn't that of a journal, or there is none. Nothing was written.
    #[error("NotFormatted")]
    NotFormatted = 2,
    /// The number of sectors isn't that of the slots, or the block of the greatest number is no spelling. Nothing was
    /// written.
    #[error("Damaged")]
    Damaged = 3,
    /// Memory was refused; nothing was written. `open` takes none, and so never answers it.
    #[error("NoMemory")]
    NoMemory = 4,
    /// The block of the greatest number has the last number, 2^40; nothing was written.
    #[error("WornOut")]
    WornOut = 6,
}

impl OpenError {
    /// The number by which the refusal is reported.
    pub fn number(self) -> u8
        ensures { result ≡ open_number self }
    {
        self as u8
    }

    /// The name by which the refusal is reported.
    pub fn name(self) -> &'static str
        ensures { result.now ≡ open_name self }
    {
        match self {
            OpenError::DeviceFault => "DeviceFault",
            OpenError::NotFormatted => "NotFormatted",
            OpenError::Damaged => "Damaged",
            OpenError::NoMemory => "NoMemory",
            OpenError::WornOut => "WornOut",
        }
    }
}
