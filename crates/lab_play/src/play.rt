//! The command `play`.

use crate::line_input::{Line, MOST_LINE, read_line};
use crate::player::{Player, Source, Totals};
use crate::request::{Members, NO_FILE, Request};
use crate::result_line::{Named, Outputs, write_unplayed};
use command_line::lab_status::{
    Status, fail, no_memory, refused_args, reported, unread, unread_for,
};
use serde_json::Value;
use std::alloc::AllocError;
use std::fs::File;
use std::io::{BufRead, BufReader, ErrorKind, Write};
use std::rt::Files;
use std::{fs, io};

/// What the command is given.
#[derive(Clone, Copy)]
pub struct PlayArgs<'a> {
    /// Where the scenarios are, `-` for standard input; without one on standard input.
    pub files: &'a [&'a str],
    /// The slots of each journal.
    pub slots: Option<u32>,
    /// Which outputs are printed.
    pub outputs: Option<&'a str>,
    /// The folder for the images.
    pub folder: Option<&'a str>,
}

// What is printed where no outputs have this name.
const NO_OUTPUTS: &str = "\
error: invalid value for '--outputs <WHICH>'
  [possible values: all, last, changes, none]

For more information, try '--help'.
";

const SLOTS: u32 = 16;

const INPUT: &str = "-";

// A block that is taken and given back before the first scenario. The C library hands the free end of its heap back to
// the system where it is greater than twice the greatest such block: without this one it does so after each scenario,
// and takes the same memory again for the next one.
const KEPT_BYTES: usize = 8_388_608;

impl<'a> Player<'a> {
    // Plays what a line asks for.
    fn play_line<R: Files<File = File> + AllocGlobal + Eprint, W: Write>(
        &mut self,
        rt: &R,
        number: u64,
        line: &[u8],
        out: &mut W,
    ) -> Result<(), Status> {
        let nameless = Named {
            id: None,
            file: self.name,
            line: Some(number),
        };
        let members = match Members::of_line(rt.alloc(), line) {
            Ok(members) => members,
            Err(found) => return self.print_line_fault(rt, nameless, &found, out),
        };
        let named = Named {
            id: members.id(),
            ..nameless
        };
        match members.request() {
            Ok((request, scenario)) => {
                let source = Source {
                    named,
                    pointer: "/scenario",
                    element: None,
                };
                self.play_value(rt, source, scenario, request, out)
            }
            Err(found) => self.print_line_fault(rt, named, &found, out),
        }
    }

    // Prints the line of a line that is too long.
    fn print_too_long<R: Eprint, W: Write>(
        &mut self,
        rt: &R,
        number: u64,
        out: &mut W,
    ) -> Result<(), Status> {
        self.totals.count = self.totals.count.saturating_add(1);
        self.totals.all_done = false;
        let named = Named {
            id: None,
            file: self.name,
            line: Some(number),
        };
        let name = self.path.escape_debug();
        let _ = eprintln!(rt;
            "etcs_lab: {name}: line {number} has more than {MOST_LINE} bytes; it and what follows it isn't read"
        );
        reported(
            rt,
            self.path,
            write_unplayed(named, "unread", "TooLong", out),
        )
    }

    // Plays the scenario of each line. The error is that of a write.
    fn play_lines<R: Files<File = File> + AllocGlobal + Eprint, B: BufRead, W: Write>(
        &mut self,
        rt: &R,
        input: &mut B,
        out: &mut W,
    ) -> Result<(), Status> {
        let mut line = Vec::new(rt.alloc());
        for number in 1..u64::MAX {
            match read_line(input, &mut line) {
                Ok(Line::End) => break,
                Ok(Line::TooLong) => return self.print_too_long(rt, number, out),
                Ok(Line::Whole) if line.as_slice().trim_ascii().is_empty() => {}
                Ok(Line::Whole) => self.play_line(rt, number, line.as_slice(), out)?,
                Err(error) => {
                    self.leave_unread(unread_line(rt, self.path, number, &error));
                    break;
                }
            }
        }
        Ok(())
    }

    // Plays the scenarios of a file that has these bytes.
    fn play_file<R: Files<File = File> + AllocGlobal + Eprint, W: Write>(
        &mut self,
        rt: &R,
        bytes: &[u8],
        out: &mut W,
    ) -> Result<(), Status> {
        let named = Named {
            id: None,
            file: self.name,
            line: None,
        };
        let source = Source {
            named,
            pointer: "",
            element: None,
        };
        match Value::from_slice(rt.alloc(), bytes) {
            Ok(value) => self.play_value(rt, source, &value, Request::default(), out),
            Err(error) if error.is_memory() => self.print_no_memory(rt, named, out),
            Err(_) => self.print_line_fault(rt, named, &NO_FILE, out),
        }
    }

    // Plays what the file holds. The error is that of a write.
    fn play_opened<R: Files<File = File> + AllocGlobal + Eprint, W: Write>(
        &mut self,
        rt: &R,
        out: &mut W,
    ) -> Result<(), Status> {
        if self.path.ends_with(".json") {
            match fs::read(rt, self.path) {
                Ok(bytes) => return self.play_file(rt, bytes.as_slice(), out),
                Err(error) => self.leave_unread(unread_for(rt, self.path, &error)),
            }
            return Ok(());
        }
        let Ok(file) = fs::open(rt, self.path) else {
            self.leave_unread(unread(rt, self.path));
            return Ok(());
        };
        match BufReader::new(rt.alloc(), file) {
            Ok(mut input) => return self.play_lines(rt, &mut input, out),
            Err(_) => self.leave_unread(no_memory(rt, self.path)),
        }
        Ok(())
    }

    // Plays what the file or standard input holds. The error is that of a write.
    fn play_source<R: Files<File = File> + Input + AllocGlobal + Eprint, W: Write>(
        &mut self,
        rt: &R,
        is_input: bool,
        out: &mut W,
    ) -> Result<(), Status> {
        let before = self.totals.count;
        if !is_input {
            self.play_opened(rt, out)?;
        } else if let Ok(mut input) = BufReader::new(rt.alloc(), rt.reader()) {
            self.play_lines(rt, &mut input, out)?;
        } else {
            self.leave_unread(no_memory(rt, self.path));
        }
        if self.totals.count == before && !self.was_left {
            self.leave_unread(fail(rt, "has no scenario", self.path, Status::Refused));
        }
        Ok(())
    }
}

// Says at which line a file can't be read.
fn unread_line<R: Eprint>(rt: &R, path: &str, number: u64, error: &io::Error) -> Status {
    if error.kind() == ErrorKind::OutOfMemory {
        return no_memory(rt, path);
    }
    let name = path.escape_debug();
    let _ = eprintln!(rt; "etcs_lab: {name}: can't be read from line {number} on");
    Status::Device
}

// Plays what one of the files holds. The error is that of a write.
fn play_one_of<'a, R: Files<File = File> + Input + AllocGlobal + Eprint, W: Write>(
    rt: &R,
    args: PlayArgs<'a>,
    outputs: Outputs,
    file: &'a str,
    totals: Totals,
    out: &mut W,
) -> Result<Totals, Status> {
    let is_input = file == INPUT;
    let path = if is_input { "standard input" } else { file };
    let name = if args.files.len() > 1 {
        let Ok(name) = Value::try_from_str(rt.alloc(), file) else {
            return Err(no_memory(rt, path));
        };
        Some(name)
    } else {
        None
    };
    let mut player = Player {
        path,
        name: name.as_ref(),
        slots: args.slots.unwrap_or(SLOTS),
        outputs,
        folder: args.folder,
        was_left: false,
        totals,
    };
    player.play_source(rt, is_input, out)?;
    Ok(player.totals)
}

/// Plays all scenarios, prints a line for each, and answers the status. A file that can't be read doesn't stop the others.
pub fn play_scenarios<R: Files<File = File> + Input + AllocGlobal + Eprint, W: Write>(
    rt: &R,
    args: PlayArgs<'_>,
    out: &mut W,
) -> Result<Status, Status> {
    let Some(outputs) = Outputs::of(args.outputs.unwrap_or("last")) else {
        return Err(refused_args(rt, NO_OUTPUTS));
    };
    let kept: Result<Vec<u8>, AllocError> = Vec::with_capacity(rt.alloc(), KEPT_BYTES);
    drop(kept);
    let mut totals = Totals {
        count: 0,
        all_done: true,
        all_read: true,
    };
    if args.files.is_empty() {
        totals = play_one_of(rt, args, outputs, INPUT, totals, out)?;
    }
    for file in args.files {
        totals = play_one_of(rt, args, outputs, file, totals, out)?;
    }
    Ok(totals.status())
}
