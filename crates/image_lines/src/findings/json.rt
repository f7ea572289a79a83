//! The lines of an examination as one JSON object (`docs/reference/json.md`).

use crate::findings::verdict::ExamineLine;
use crate::sink::LineSink;
use lives::LateError;
use std::alloc::Global;
use std::io::Write;

// How each member of the object begins, in their order; the second and the third are lists.
const BEGINNINGS: [&str; 6] = [
    "{\"image\":",
    ",\"slots\":[",
    "],\"between\":[",
    "],\"journal\":",
    ",\"power_up\":",
    ",\"whole\":",
];

// The member that a line is or is in.
fn member_of(line: &ExamineLine) -> usize {
    match line {
        ExamineLine::Image(_) => 0,
        ExamineLine::Slot(_) => 1,
        ExamineLine::Between(_) => 2,
        ExamineLine::Journal(_) => 3,
        ExamineLine::PowerUp(_) => 4,
        ExamineLine::End(_) => 5,
    }
}

/// Prints the lines of one examination as one JSON object and a line feed.
#[derive(Drop)]
pub struct JsonExamination<W> {
    alloc: Global,
    out: W,
    // How many members are begun.
    begun: usize,
}

impl<W> JsonExamination<W> {
    /// The object goes to this writer.
    pub fn new(alloc: Global, out: W) -> Self {
        JsonExamination {
            alloc,
            out,
            begun: 0,
        }
    }
}

impl<W: Write> LineSink<ExamineLine> for JsonExamination<W> {
    fn take(&mut self, line: &ExamineLine) -> Result<(), LateError> {
        let Ok(text) = serde_json::to_vec(self.alloc, line) else {
            return Err(LateError::NoMemory);
        };
        let member = member_of(line);
        if member < self.begun {
            self.out.write_all(b",")?;
        }
        for (index, beginning) in BEGINNINGS.iter().enumerate() {
            if self.begun <= index && index <= member {
                self.out.write_all(beginning.as_bytes())?;
            }
        }
        self.begun = member.saturating_add(1);
        self.out.write_all(text.as_slice())?;
        if matches!(line, ExamineLine::End(_)) {
            self.out.write_all(b"}\n")?;
        }
        Ok(())
    }
}
