//! A line of the output, and the status that goes with it.
ghost use Rattle.std.specs.Prelude.{◌≡◌, ◌++◌, codes, IfOk, OnOk};
ghost use Rattle.std.specs.Io.KnownBytes.{Appends};

use crate::status::Status;
use std::io;
use std::io::Write;

/// Writes a text and the end of its line, and answers the status that goes with it (this project's profile). The error
/// is that of the write.
pub fn describe<W: Write>(out: &mut W, line: &str, status: Status) -> io::Result<Status>
    ensures status { IfOk result (λ reported. reported ≡ status) }
    ensures line { OnOk result (Appends (W.contents out.old) (W.contents out.new) (line.now ++ codes "\n")) }
{
    writeln!(out, "{line}")?;
    Ok(status)
}
