//! The line of an output, whose text after the number is kept for the next one.
ghost use Rattle.std.specs.Prelude.{◌≡◌, ◌+◌, ◌≤◌, ◌++◌, OnOk};
ghost use Rattle.std.specs.Io.KnownBytes.{Appends};
ghost use Rattle.arrayvec.specs.ArrayVec.{array_vec_len};
ghost use Rattle.text_output.specs.OutputLine.{after_number, line_of};

use crate::alike::are_same;
use crate::line::append;
use crate::output_names::{brake_name, level_name, mode_name};
use arrayvec::ArrayVec;
use events::Output;
use itoa::Buffer;
use std::io;
use std::io::Write;

// The text after the number has at most 53 bytes.
type After = ArrayVec<u8, 64>;

// The longest line has 85 bytes.
type Line = ArrayVec<u8, 96>;

// Mode, level, brake, limit and indications.
#[tactic(auto, unfolding(crate::specs::OutputLine::after_number))]
fn describe(output: &Output) -> After
    ensures text { result.items ≡ after_number output.now }
    ensures len { array_vec_len result ≤ 64 }
{
    let mut text = After::new();
    append(&mut text, b" mode ");
    append(&mut text, mode_name(output.mode).as_bytes());
    append(&mut text, b" level ");
    append(&mut text, level_name(output.level).as_bytes());
    append(&mut text, b" brake ");
    append(&mut text, brake_name(output.brake).as_bytes());
    append(&mut text, b" limit ");
    append(
        &mut text,
        Buffer::new().format(output.limit.get()).as_bytes(),
    );
    append(&mut text, b" ind ");
    append(
        &mut text,
        Buffer::new().format(output.indications.number()).as_bytes(),
    );
    append(&mut text, b"\n");
    text
}

/// Writes the lines of outputs (this project's profile). It keeps the text of the last one after its number, so that an
/// equal output isn't described again.
#[derive(Drop)]
pub struct OutputLines {
    described: Output,
    text: After,
    ghost is_text: { text.items ≡ after_number described },
}

impl OutputLines {
    /// Before the first line.
    pub fn new() -> OutputLines {
        let described = Output::blank();
        let text = describe(&described);
        OutputLines { described, text }
    }

    // Describes another output.
    #[inline(never)]
    fn change_to(&mut self, output: &Output)
        ensures { self.new.described ≡ output.now }
    {
        let text = describe(output);
        *self = OutputLines {
            described: *output,
            text,
        };
    }

    // Describes an output, unless it is the last one.
    #[inline(always)]
    fn keep(&mut self, output: &Output)
        ensures { self.new.described ≡ output.now }
    {
        if !are_same(&self.described, output) {
            self.change_to(output);
        }
    }

    /// Writes the line of an event's output (this project's profile): `event N mode M level L brake B limit V ind I`. N
    /// counts from 0, V is in metres per hour, I is the sum of the indications' bits (`docs/reference/glossary.md`). The
    /// error is that of a write.
    #[tactic(auto, unfolding(crate::specs::OutputLine::line_of))]
    pub fn write<W: Write>(&mut self, number: u64, output: &Output, out: &mut W) -> io::Result<()>
        ensures { OnOk result (Appends (W.contents out.old) (W.contents out.new) (line_of number output.now)) }
    {
        self.keep(output);
        let mut line = Line::new();
        append(&mut line, b"event ");
        append(&mut line, Buffer::new().format(number).as_bytes());
        append(&mut line, self.text.as_slice());
        out.write_all(line.as_slice())
    }
}
