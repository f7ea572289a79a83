//! The command that the arguments name is executed.

use crate::event_lines::events_reported;
use crate::examined::{checked, examined, replayed};
use crate::packet_names::packets_reported;
use crate::run::played;
use crate::status::{Status, answered_args};
use crate::telegrams::decode_reported;
use crate::why::why_reported;
use command_line::{LabCommand, parse_lab};
use lab_play::{PlayArgs, play_scenarios};
use lab_why::Options;
use std::fs::File;
use std::io::Write;
use std::rt::Files;
use text_output::Form;

fn form_of(is_json: bool) -> Form {
    if is_json { Form::Json } else { Form::People }
}

// Executes a command.
fn execute<R: Files<File = File> + Input + AllocGlobal + Eprint, W: Write>(
    rt: &R,
    command: LabCommand<'_>,
    is_watched: bool,
    out: &mut W,
) -> Result<Status, Status> {
    match command {
        LabCommand::Examine { image, is_json } => {
            examined(rt, image, is_watched, form_of(is_json), out)
        }
        LabCommand::Events { image, all } => events_reported(rt, image, all, out),
        LabCommand::Replay { image, is_json } => replayed(rt, image, form_of(is_json), out),
        LabCommand::Check { image, is_json } => {
            checked(rt, image, is_watched, form_of(is_json), out)
        }
        LabCommand::Why {
            image,
            event,
            known,
            is_json,
        } => {
            let options = Options { only: event, known };
            why_reported(rt, image, options, form_of(is_json), out)
        }
        LabCommand::Decode { hex, is_json } => decode_reported(rt, hex, is_json, out),
        LabCommand::Packets { hex, is_json } => packets_reported(rt, hex, form_of(is_json), out),
        LabCommand::Run { scenario } => played(rt, scenario, out),
        LabCommand::Play {
            files,
            slots,
            outputs,
            folder,
        } => {
            let args = PlayArgs {
                files: files.as_slice(),
                slots,
                outputs,
                folder,
            };
            play_scenarios(rt, args, out)
        }
    }
}

/// Executes the command that the arguments name, and returns the status. Where they name none, it prints what the parser
/// answers.
pub(crate) fn answer<R: Files<File = File> + Input + AllocGlobal + Eprint, W: Write>(
    rt: &R,
    args: &[String],
    is_watched: bool,
    out: &mut W,
) -> Status {
    match parse_lab(rt.alloc(), args) {
        Ok(command) => execute(rt, command, is_watched, out).unwrap_or_else(|status| status),
        Err(error) => answered_args(rt, &error, out),
    }
}
