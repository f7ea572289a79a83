//! Lines of a file or of standard input, each of a bounded length.

use std::io;
use std::io::{BufRead, Read};

/// The most bytes of a line.
pub(crate) const MOST_LINE: usize = 16_777_216;

/// What was read.
#[derive(Clone, Copy)]
pub(crate) enum Line {
    /// The next line.
    Whole,
    /// A line that is longer than any may be.
    TooLong,
    /// There is none any more.
    End,
}

/// Reads the next line, without its end, in place of what the buffer holds.
pub(crate) fn read_line<B: BufRead>(input: &mut B, line: &mut Vec<u8>) -> io::Result<Line> {
    line.clear();
    let mut bounded = input.take(MOST_LINE as u64 + 1);
    if bounded.read_until(b'\n', line)? == 0 {
        return Ok(Line::End);
    }
    if line.as_slice().ends_with(b"\n") {
        line.pop();
        return Ok(Line::Whole);
    }
    if line.len() > MOST_LINE {
        return Ok(Line::TooLong);
    }
    Ok(Line::Whole)
}
