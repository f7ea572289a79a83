//! How `etcs_lab` ends, and what it says on standard error.
ghost use Rattle.std.specs.Prelude.{◌≡◌, ◌⊎◌, IfErr, false, is_err, true};
ghost use Rattle.std.specs.IoError.{error_kind};
ghost use Rattle.clap.specs.Words.{kind_of};
ghost use Rattle.command_line.specs.Statuses.{code_of, is_help, unread_status, wrong_status};

use clap::Error;
use clap::error::ErrorKind as Kind;
use std::io;
use std::io::{ErrorKind, Write};

/// How `etcs_lab` ends; its number is the exit status of the process (this project's profile).
#[derive(Clone, Copy)]
pub enum Status {
    /// All is whole; what was asked is done.
    Whole = 0,
    /// What was named is refused, or the answer could not be written.
    Refused = 1,
    /// The arguments are not those of a command.
    Usage = 2,
    /// A file could not be opened or read, or the device failed.
    Device = 3,
    /// Something is lost, damaged or contradicts, or there is something to report.
    Damaged = 4,
    /// Nothing could be written, which was said; the process ends as where something is refused.
    Unwritten = 5,
}

impl Status {
    /// The exit status of the process.
    pub fn code(self) -> u8
        ensures { result ≡ code_of self }
    {
        match self {
            Status::Unwritten => Status::Refused as u8,
            _ => self as u8,
        }
    }
}

/// Says on standard error what failed. Signs of a name that can't be seen are escaped.
pub fn fail<R: Eprint>(rt: &R, what: &str, path: &str, status: Status) -> Status
    ensures { result ≡ status }
{
    let name = path.escape_debug();
    let _ = eprintln!(rt; "etcs_lab: {name}: {what}");
    status
}

/// Says that nothing can be written.
pub fn unwritten<R: Eprint>(rt: &R, path: &str) -> Status
    ensures { result ≡ Status.Unwritten }
{
    fail(rt, "the output can't be written", path, Status::Unwritten)
}

/// Whether a text was written; else says that nothing can be.
pub fn reported<R: Eprint>(rt: &R, path: &str, written: io::Result<()>) -> Result<(), Status>
    ensures same { is_err result ≡ is_err written }
    ensures status { IfErr result (λ status. status ≡ Status.Unwritten) }
{
    written.map_err(|_| unwritten(rt, path))
}

/// Says that a file or an image can't be read.
pub fn unread<R: Eprint>(rt: &R, path: &str) -> Status
    ensures { result ≡ Status.Device }
{
    fail(rt, "can't be read", path, Status::Device)
}

/// Says that an image isn't formatted.
pub fn unformatted<R: Eprint>(rt: &R, path: &str) -> Status
    ensures { result ≡ Status.Refused }
{
    fail(rt, "is not a formatted image", path, Status::Refused)
}

/// Says that memory is refused.
pub fn no_memory<R: Eprint>(rt: &R, path: &str) -> Status
    ensures { result ≡ Status.Refused }
{
    fail(rt, "out of memory", path, Status::Refused)
}

/// Says that a file can't be read, or that memory for it is refused.
pub fn unread_for<R: Eprint>(rt: &R, path: &str, error: &io::Error) -> Status
    ensures { result ≡ unread_status (error_kind error.now) }
{
    match error.kind() {
        ErrorKind::OutOfMemory => no_memory(rt, path),
        _ => unread(rt, path),
    }
}

/// Prints on standard error what is wrong with the arguments.
pub fn refused_args<R: Eprint>(rt: &R, text: &str) -> Status
    ensures { result ≡ Status.Usage }
{
    let _ = eprint!(rt; "{text}");
    Status::Usage
}

/// Prints what the parser answers in place of a command: help or the version where that is asked for, else on standard
/// error what is wrong.
pub fn answered_args<R: Eprint, W: Write>(rt: &R, error: &Error, out: &mut W) -> Status
    ensures help { is_help (kind_of error.now) ≡ true → (result ≡ Status.Whole) ⊎ (result ≡ Status.Unwritten) }
    ensures wrong { is_help (kind_of error.now) ≡ false → result ≡ wrong_status (kind_of error.now) }
{
    match error.kind() {
        Kind::DisplayHelp | Kind::DisplayVersion => match write!(out, "{error}") {
            Ok(()) => Status::Whole,
            Err(_) => unwritten(rt, "help"),
        },
        Kind::OutOfMemory => no_memory(rt, "arguments"),
        _ => {
            let _ = eprint!(rt; "{error}");
            Status::Usage
        }
    }
}
