//! What a program reads from its process before it opens a file: its arguments, and its standard streams.
ghost use Rattle.std.specs.Prelude.{pos, ◌<ℤ◌, IfOk};
ghost use Rattle.std.specs.Fd.{file_raw_fd};

use std::fs::File;
use std::io::ErrorKind;
use std::os::fd::{AsRawFd, IntoRawFd};
use std::rt::{Env, Files};
use std::{env, io};

/// The arguments of the process, without the program's name. The error is that an argument is not text, or that memory
/// was refused.
pub fn args_of<R: Env + AllocGlobal>(rt: &R) -> io::Result<Vec<String>> {
    let mut args = Vec::new(rt.alloc());
    for arg in env::args(rt)?.skip(1) {
        args.push(arg)?;
    }
    Ok(args)
}

// Standard input, output and error have the numbers 0, 1 and 2.
const LAST_STREAM: i32 = 2;

const STREAMS: u32 = 3;

/// Takes the number of each standard stream that is closed, by the null device, to the end of the process. So no file
/// that is opened later gets one of these numbers, and what is written to a closed stream reaches no file. The null
/// device is opened for reading alone: a write to a stream that was closed still fails. A program calls this before it
/// opens any other file.
///
/// It answers the last file that it opened. The error is that of an opening.
pub fn take_standard_streams<R: Files<File = File>>(rt: &R) -> io::Result<File>
    // A system gives each file the least number that is free, so one above 2 shows that 0, 1 and 2 are taken.
    ensures above { IfOk result (λ file. pos 2 <ℤ file_raw_fd file) }
{
    for _ in 0..=STREAMS {
        let file = File::open(rt, "/dev/null")?;
        if file.as_raw_fd() > LAST_STREAM {
            return Ok(file);
        }
        // Its number stays taken: nothing closes it.
        let _ = file.into_raw_fd();
    }
    Err(io::Error::from(ErrorKind::Other))
}
