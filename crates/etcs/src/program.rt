//! The commands `decode`, `format`, `run` and `journal`.

use command_line::{EtcsArgsError, EtcsCommand, parse_etcs};
use decoding::decode_text;
use sessions::{format_image, list_image, run_scenario};
use std::fs::File;
use std::io;
use std::io::Write;
use std::rt::Files;
use text_output::{Status, describe};

fn execute<R: Files<File = File> + AllocGlobal, W: Write>(
    rt: &R,
    args: &[String],
    out: &mut W,
) -> io::Result<Status> {
    match parse_etcs(rt.alloc(), args) {
        Ok(EtcsCommand::Decode { hex }) => decode_text(rt.alloc(), hex, out),
        Ok(EtcsCommand::Format { image, blocks }) => format_image(rt, image, blocks, out),
        Ok(EtcsCommand::Run { scenario, image }) => run_scenario(rt, scenario, image, out),
        Ok(EtcsCommand::Journal { image }) => list_image(rt, image, out),
        Err(EtcsArgsError::OutOfMemory) => describe(out, "refused memory", Status::Refused),
        Err(EtcsArgsError::Refused) => describe(out, "usage", Status::Usage),
    }
}

/// The number of a status, or that of a write that failed.
pub(crate) fn status_of(reported: io::Result<Status>) -> u8 {
    match reported {
        Ok(status) => status as u8,
        Err(_) => Status::Refused as u8,
    }
}

/// Executes the command that the arguments name, and returns the exit status: 0 done, 1 refused or not written, 2 for
/// arguments that are not those of a command, 3 where a file or the device fails.
pub(crate) fn etcs_main<R: Files<File = File> + AllocGlobal, W: Write>(
    rt: &R,
    args: &[String],
    out: &mut W,
) -> u8 {
    status_of(execute(rt, args, out))
}
