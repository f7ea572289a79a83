//! Whether a telegram counts in its group.
ghost use Rattle.std.specs.Prelude.{◌≡◌, false};
ghost use Rattle.balise_groups.specs.Hearing.{hearing_of};

use super::{Assembler, goes_on};
use crate::reading::Reading;
use vars::Variable;

/// Whether a balise's telegram counts in its group (SUBSET-026, 3.4; this project's profile).
#[derive(Clone, Copy)]
pub enum Hearing {
    /// It counts: the group is read on by it, or begins with it.
    Counts,
    /// It doesn't: its group has closed, and the train hasn't left it.
    GroupClosed,
    /// It doesn't: a telegram of the same place in the group being read has counted.
    PlaceRead,
}

impl Assembler {
    /// Whether a reading would count as the next one. Nothing changes.
    pub fn hearing(&self, reading: &Reading) -> Hearing
        ensures { result ≡ hearing_of reading.now self.now }
    {
        if goes_on(reading, &self.last) {
            return Hearing::GroupClosed;
        }
        let place = reading.telegram.header().position.number();
        if goes_on(reading, &self.current) && self.readings.has_place(place) {
            Hearing::PlaceRead
        } else {
            Hearing::Counts
        }
    }
}
