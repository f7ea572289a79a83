//! The run of a process: its arguments, its standard output, and its exit status.
use crate::program::{etcs_main, status_of};
use command_line::{args_of, take_standard_streams};
use std::fs::File;
use std::io;
use std::io::{BufWriter, Write};
use std::rt::{Env, Files};
use text_output::{Status, describe};

fn run_into<R: Env + Files<File = File> + AllocGlobal, W: Write>(rt: &R, out: &mut W) -> u8 {
    match args_of(rt) {
        Ok(args) => etcs_main(rt, args.as_slice(), out),
        Err(error) if error.kind() == io::ErrorKind::OutOfMemory => {
            status_of(describe(out, "refused memory", Status::Refused))
        }
        // An argument that is not text is none of the program's.
        Err(_) => status_of(describe(out, "usage", Status::Usage)),
    }
}

/// Executes the command that the arguments of the process name, over standard output, and returns the exit status: 0
/// done, 1 refused or not written, 2 for arguments that are not those of a command, 3 where a file or the device fails.
/// Before it opens a file it takes the standard streams that are closed. Where it can't, it writes nothing, and opens
/// no file.
pub(crate) fn run<R: Env + Files<File = File> + Print + AllocGlobal>(rt: &R) -> u8 {
    if take_standard_streams(rt).is_err() {
        return Status::Device as u8;
    }
    let Ok(mut out) = BufWriter::new(rt.alloc(), io::writer(rt)) else {
        return status_of(describe(&mut io::writer(rt), "refused memory", Status::Refused));
    };
    let status = run_into(rt, &mut out);
    match out.flush() {
        Ok(()) => status,
        Err(_) => Status::Refused as u8,
    }
}
