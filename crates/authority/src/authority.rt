//! The movement authority in a life: it is accepted, its timers run, and it says its end.
ghost use Rattle.std.specs.Prelude.{◌≡◌, List, [], ◌∷◌, is_some, IsTrue};
ghost use Rattle.authority.specs.Entries.{AuthorityEntry, fact_of, accepted};
ghost use Rattle.authority.specs.Entries.AuthorityEntry.{Ticked, Accepted, Passed, Cleared};
ghost use Rattle.authority.specs.Authority.{end_of, main_speed_of};
ghost use Rattle.authority.specs.Known.{known};
ghost use Rattle.authority.specs.Untimed.{IsUntimed};

use crate::accepting::store;
use crate::answers::End;
use crate::stored::Stored;
use packets::MovementAuthority;
use std::marker::Model;
use units::{GroupPlace, Mph, Ms, Stretch};

/// The movement authority, if one is stored, and the clock that its timers go by (SUBSET-026, 3.8; the moments: this
/// project's profile). Its calls take no memory.
#[derive(Drop)]
pub struct Authority {
    moment: Ms,
    stored: Option<Stored>,
}

impl Model for Authority {
    ghost use Rattle.authority.specs.Known.{KnownAuthority};

    ghost Value = { KnownAuthority };

    ghost view = { λ a. record { moment = a.moment; stored = a.stored } };
}

impl Authority {
    /// No authority is stored, at moment 0.
    pub fn new() -> Self
        ensures { result ≡ known [] }
    {
        Authority {
            moment: Ms::new(0).unwrap(),
            stored: None,
        }
    }

    /// Takes packet 12 in place of the old authority. Its sections count from the place of its group, in centimetres;
    /// its timers from the moment of acceptance, in milliseconds.
    pub fn accept(&mut self, packet: &MovementAuthority, place: GroupPlace, moment: Ms)
        ensures { (entries : List AuthorityEntry) → self.new ≡ known (Accepted (fact_of packet.now place moment) ∷ entries) }
    {
        self.moment = moment;
        if self.stored.is_none() {
            self.stored = Some(Stored::default());
        }
        if let Some(stored) = &mut self.stored {
            store(stored, packet, place, moment);
        }
    }

    /// Moves the clock to a moment of the life, in milliseconds. The caller owes moments that don't fall.
    pub fn tick(&mut self, moment: Ms)
        ensures stands { (entries : List AuthorityEntry) → self.old ≡ known entries
            → self.new ≡ known (Ticked moment ∷ entries) }
        ensures kept { self.new.stored ≡ self.old.stored }
    {
        self.moment = moment;
    }

    /// Takes where the train is after an event, so that timers start and stop. The caller calls it once an event.
    pub fn pass(&mut self, train: &Stretch)
        ensures { (entries : List AuthorityEntry) → self.old ≡ known entries
            → self.new ≡ known (Passed train.now ∷ entries) }
    {
        if let Some(stored) = &mut self.stored {
            stored.pass(self.moment, train);
        }
    }

    /// Deletes the authority, as a mode does (4.10). The clock goes on.
    pub fn clear(&mut self)
        ensures { (entries : List AuthorityEntry) → self.old ≡ known entries
            → self.new ≡ known (Cleared ∷ entries) }
    {
        self.stored = None;
    }

    /// The end of authority now, with the speed there, the supervised location and the release speed; None where no
    /// authority is stored.
    #[inline(always)]
    pub fn end(&self) -> Option<End>
        ensures { (entries : List AuthorityEntry) → self.now ≡ known entries → result ≡ end_of entries }
    {
        match &self.stored {
            None => None,
            Some(stored) => Some(stored.end_now(self.moment)),
        }
    }

    /// V_MAIN, the greatest speed of the whole authority, in metres per hour; None where no authority is stored.
    pub fn main_speed(&self) -> Option<Mph>
        ensures { (entries : List AuthorityEntry) → self.now ≡ known entries → result ≡ main_speed_of entries }
    {
        match &self.stored {
            None => None,
            Some(stored) => Some(stored.main_speed),
        }
    }

    /// Whether an authority is stored.
    pub fn is_stored(&self) -> bool
        ensures { (entries : List AuthorityEntry) → self.now ≡ known entries → result ≡ is_some (accepted entries) }
    {
        self.stored.is_some()
    }

    /// Whether no time of the authority runs: none is stored, or its end stays the same at every moment and wherever
    /// the train is (3.8.3, 3.8.4).
    pub fn is_untimed(&self) -> bool
        ensures { IsTrue result → IsUntimed self.now.stored }
    {
        match &self.stored {
            None => true,
            Some(stored) => stored.has_no_time(),
        }
    }

    /// An equal value.
    pub fn copy(&self) -> Self
        ensures { result ≡ self.now }
    {
        match &self.stored {
            None => Authority {
                moment: self.moment,
                stored: None,
            },
            Some(stored) => Authority {
                moment: self.moment,
                stored: Some(stored.copy()),
            },
        }
    }
}
