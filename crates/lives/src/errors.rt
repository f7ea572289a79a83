//! Errors.
ghost use Rattle.std.specs.Prelude.{◌≡◌, false};
ghost use Rattle.std.specs.IoError.{error_kind};
ghost use Rattle.lives.specs.Errors.{is_device, unopened, writing_stopped, walk_error, IsLate};

use journal::OpenError;
use std::io;
use std::io::ErrorKind;

/// Why a walk over an image did not come to its end (this project's profile).
#[derive(Clone, Copy)]
pub enum WalkError {
    /// The device failed in this call.
    DeviceFault,
    /// The first sector is not that of a journal, or there is none.
    NotFormatted,
    /// The number of sectors isn't that of the slots.
    Damaged,
    /// The text could not be written.
    Write,
    /// Memory was refused.
    NoMemory,
}

impl From<OpenError> for WalkError {
    ghost from_gives = { λ error walk. walk ≡ unopened error };

    fn from(error: OpenError) -> WalkError {
        match error {
            OpenError::DeviceFault => WalkError::DeviceFault,
            OpenError::NotFormatted => WalkError::NotFormatted,
            OpenError::Damaged => WalkError::Damaged,
        }
    }
}

/// Why a visitor stopped a walk (this project's profile).
#[derive(Clone, Copy)]
pub enum LateError {
    /// The text could not be written.
    Write,
    /// Memory was refused.
    NoMemory,
}

impl From<io::Error> for LateError {
    ghost from_gives = { λ error late. late ≡ writing_stopped (error_kind error) };

    fn from(error: io::Error) -> LateError {
        match error.kind() {
            ErrorKind::OutOfMemory => LateError::NoMemory,
            _ => LateError::Write,
        }
    }
}

/// What a visitor answered, for the caller of a walk.
pub fn late(error: LateError) -> WalkError
    ensures value { result ≡ walk_error error }
    ensures device { is_device result ≡ false }
    ensures late { IsLate result }
{
    match error {
        LateError::Write => WalkError::Write,
        LateError::NoMemory => WalkError::NoMemory,
    }
}
