//! Takers of lines: one prints them as JSON, the other for people.

use lives::{LateError, WalkError, late};
use serde::Serialize;
use std::alloc::Global;
use std::fmt::Display;
use std::io::Write;

/// Takes lines, one after another.
pub trait LineSink<L> {
    /// Takes a line. After an error no further line is handed to it.
    fn take(&mut self, line: &L) -> Result<(), LateError>;
}

/// Hands on a line.
pub(crate) fn hand_on<L, S: LineSink<L>>(line: &L, sink: &mut S) -> Result<(), WalkError> {
    sink.take(line).map_err(|error| late(error))
}

/// Hands on those of the lines that there are, in their order.
pub(crate) fn hand_on_each<L, S: LineSink<L>>(
    lines: &[Option<L>],
    sink: &mut S,
) -> Result<(), WalkError> {
    for line in lines {
        if let Some(line) = line {
            hand_on(line, sink)?;
        }
    }
    Ok(())
}

/// Prints each line as one JSON object and a line feed.
#[derive(Drop)]
pub struct JsonLines<W> {
    alloc: Global,
    out: W,
}

impl<W> JsonLines<W> {
    /// Lines go to this writer.
    pub fn new(alloc: Global, out: W) -> Self {
        JsonLines { alloc, out }
    }
}

impl<L: Serialize, W: Write> LineSink<L> for JsonLines<W> {
    fn take(&mut self, line: &L) -> Result<(), LateError> {
        let Ok(text) = serde_json::to_vec(self.alloc, line) else {
            return Err(LateError::NoMemory);
        };
        self.out.write_all(text.as_slice())?;
        self.out.write_all(b"\n")?;
        Ok(())
    }
}

/// Prints each line as people read it.
#[derive(Drop)]
pub struct TextLines<W> {
    out: W,
}

impl<W> TextLines<W> {
    /// Lines go to this writer.
    pub fn new(out: W) -> Self {
        TextLines { out }
    }
}

impl<L: Display, W: Write> LineSink<L> for TextLines<W> {
    fn take(&mut self, line: &L) -> Result<(), LateError> {
        writeln!(self.out, "{line}")?;
        Ok(())
    }
}
