//! What becomes of the bytes that a balise sends, apart from the groups that they close.
ghost use Rattle.std.specs.Prelude.{◌≡◌};
ghost use Rattle.balise_groups.specs.Hearing.{hearing_of};
ghost use Rattle.track_picture.specs.Hearing.{IsHeardSo};
ghost use Rattle.track_picture.specs.StandsFor.{Life, StandsForLife};

use crate::parts::Parts;
use crate::state::TracksideOver;
use crate::stores::ProfileStores;
use balise_groups::{Hearing, Reading};
use telegram::{Received, TelegramFault};

/// What becomes of the bytes that a balise sends (SUBSET-026, 3.4 and 8.4.2).
#[derive(Clone, Copy)]
pub enum TelegramOutcome {
    /// They carry no telegram, by this fault, and have no effect.
    NoTelegram(TelegramFault),
    /// They carry a telegram, which counts in its group or doesn't.
    Heard(Hearing),
}

impl Parts {
    // Whether a telegram would count in its group.
    fn hearing(&self, telegram: Received) -> Hearing
        ensures { result ≡ hearing_of (record { telegram = telegram; sums = self.now.place.sums }) self.now.groups }
    {
        let sums = self.place.sums();
        self.groups.hearing(&Reading { telegram, sums })
    }
}

impl<T: ProfileStores> TracksideOver<T> {
    /// What would become of these bytes of a balise as the next event. Nothing changes, and no memory is taken.
    pub fn outcome_of(&self, bytes: &[u8]) -> TelegramOutcome
        ensures { (life : Life) → StandsForLife T.stores self.now life → IsHeardSo life.entries bytes.now result }
    {
        match Received::new(bytes) {
            Err(fault) => TelegramOutcome::NoTelegram(fault),
            Ok(telegram) => TelegramOutcome::Heard(self.parts.hearing(telegram)),
        }
    }
}
