//! How far a long file is read, on a terminal.

// A line is written each time that so many bytes are read; of a file with fewer than twice as many there is none.
const STEP: u64 = 67_108_864;

/// How far a file is read, as one line on standard error that is written over.
#[derive(Drop)]
pub(crate) struct Progress {
    is_visible: bool,
    length: u64,
    next: u64,
}

fn megabytes(bytes: u64) -> u64 {
    bytes / 1_000_000
}

impl Progress {
    /// Of a file of so many bytes, where somebody watches.
    pub(crate) fn of(length: u64, is_watched: bool) -> Progress {
        Progress {
            is_visible: is_watched && length >= 2 * STEP,
            length,
            next: STEP,
        }
    }

    /// So many bytes are read.
    pub(crate) fn describe<R: Eprint>(&mut self, rt: &R, bytes: u64) {
        if self.is_visible && bytes >= self.next {
            self.next = bytes.saturating_add(STEP);
            let (read, all) = (megabytes(bytes), megabytes(self.length));
            let _ = eprint!(rt; "\r{read} of {all} MB read");
        }
    }

    /// All is read: the line is taken away.
    pub(crate) fn end<R: Eprint>(&self, rt: &R) {
        if self.is_visible {
            let _ = eprint!(rt; "\r                              \r");
        }
    }
}
