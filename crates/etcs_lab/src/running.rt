//! The program over the arguments and the streams of its process.

use crate::program::answer;
use crate::status::{Status, no_memory, refused_args, unwritten};
use command_line::{args_of, take_standard_streams};
use std::fs::File;
use std::io;
use std::io::{BufWriter, ErrorKind, Write};
use std::rt::{Env, Files};

// What is printed where an argument is not text.
const NO_TEXT: &str = "error: an argument is not valid UTF-8\n";

// Executes the command over a buffer before standard output, and says where that can't be written.
fn run_into<R: Env + Files<File = File> + Input + Eprint + AllocGlobal, W: Write>(
    rt: &R,
    is_watched: bool,
    out: &mut W,
) -> Status {
    let args = match args_of(rt) {
        Ok(args) => args,
        Err(error) if error.kind() == ErrorKind::OutOfMemory => return no_memory(rt, "arguments"),
        Err(_) => return refused_args(rt, NO_TEXT),
    };
    let status = answer(rt, args.as_slice(), is_watched, out);
    match (status, out.flush()) {
        (Status::Unwritten, _) | (_, Ok(())) => status,
        (_, Err(_)) => unwritten(rt, "standard output"),
    }
}

/// Executes the command that the arguments of the process name, over standard output, and returns the exit status. Before it opens a file it takes the standard streams that are closed. Where it can't, it writes nothing, and opens
/// no file. Where somebody watches standard error it shows there how far a long file is read.
pub(crate) fn run<R: Env + Files<File = File> + Input + Print + Eprint + AllocGlobal>(
    rt: &R,
    is_watched: bool,
) -> u8 {
    if take_standard_streams(rt).is_err() {
        return Status::Device.code();
    }
    match BufWriter::new(rt.alloc(), io::writer(rt)) {
        Ok(mut out) => run_into(rt, is_watched, &mut out).code(),
        Err(_) => no_memory(rt, "standard output").code(),
    }
}
