//! What becomes of the groups that an input would close, for who asks why nothing of a telegram was used.
ghost use Rattle.std.specs.Prelude.{◌≡◌, ◌≤◌, [], IsOk, IfOk};
ghost use Rattle.balise_groups.specs.declared.message.Closed.TheVariants as closed;
ghost use Rattle.balise_groups.specs.PacketCounts.{packets_of_closed};
ghost use Rattle.events.specs.declared.input.Input.TheVariants as inputs;
ghost use Rattle.mode_table.specs.declared.mode.Mode.{Mode as AMode};
ghost use Rattle.track_picture.specs.Closings.{why_rejected, closing_as, closing_if, closings_in, closings_by, all_of};
ghost use Rattle.track_picture.specs.Columns.{StandsForColumns, columns_of, moved, happened_by};
ghost use Rattle.track_picture.specs.declared.closings.Closing.TheVariants as closing;
ghost use Rattle.track_picture.specs.declared.happened.Happened.{Happened as HasHappened};
ghost use Rattle.track_picture.specs.Entry.{InputEffect, Used, nothing_happened};
ghost use Rattle.track_picture.specs.Sentences.{heard, with_closed, with_groups};
ghost use Rattle.track_picture.specs.StandsFor.{Life, StandsForLife, grown_so_far, space_in, size_in};
ghost use Rattle.track_picture.specs.Steps.{HasSpaceFor};

use crate::parts::Parts;
use crate::state::TracksideOver;
use crate::stores::ProfileStores;
use balise_groups::{Broken, Closed, Message};
use events::{Input, Reading};
use linking::{Announcement, Verdict};
use mode_table::Mode;
use std::alloc::Global;
use telegram::Received;
use units::NoMemory;

/// What became of the message of a balise group (SUBSET-026, 3.4.4 and 3.16.2).
#[derive(Clone, Copy)]
pub enum MessageOutcome {
    /// It is used. With Some it is of the group of this announcement; with None its group isn't linked, or linking
    /// isn't in use (3.4.4).
    Accepted(Option<Announcement>),
    /// Its group is linked and isn't announced while others are (3.4.4). It isn't used.
    NotAnnounced,
    /// Its group was passed in another direction than this announcement reports (3.16.2.3). It isn't used.
    WrongWay(Announcement),
    /// Its group was found before the place that this announcement allows (3.16.2). It isn't used.
    TooEarly(Announcement),
}

/// A balise group that closed, and what became of it (SUBSET-026, 3.4, 3.4.4 and 3.16.2).
#[derive(Drop)]
pub enum Closing {
    /// Its message, and what became of that.
    Whole(Message, MessageOutcome),
    /// It gave no message. With Some it was announced so, and the announcement's own reaction follows; one that isn't
    /// linked asks for the service brake.
    Broken(Broken, Option<Announcement>),
}

/// The balise groups that an input closes, in their order.
#[derive(Drop)]
pub struct Closings {
    /// The one that the input ended.
    pub ended: Option<Closing>,
    /// The telegram's own, where it is whole now.
    pub whole: Option<Closing>,
}

impl Closings {
    /// No group closes.
    pub const NONE: Closings = Closings {
        ended: None,
        whole: None,
    };
}

// Why an announced group wasn't used.
fn why_rejected(message: &Message, announcement: &Announcement) -> MessageOutcome
    ensures { result ≡ why_rejected message.now announcement.now }
{
    if announcement.is_wrong_way(message.direction) {
        MessageOutcome::WrongWay(*announcement)
    } else {
        MessageOutcome::TooEarly(*announcement)
    }
}

impl Parts {
    // What becomes of a message that closes next.
    fn outcome_of(&self, message: &Message) -> MessageOutcome
        ensures { closing.Whole message.now result ≡ closing_as self.now.links self.now.place (closed.Whole message.now) }
    {
        let judgement = self.links.judged(&self.group_read(message));
        match judgement.verdict {
            Verdict::Accept(announced) => MessageOutcome::Accepted(announced),
            Verdict::Ignore => MessageOutcome::NotAnnounced,
            Verdict::Reaction(announcement) => why_rejected(message, &announcement),
        }
    }

    // What becomes of a group that closes next. Nothing changes.
    fn closing(&self, group: Closed) -> Closing
        ensures { result ≡ closing_as self.now.links self.now.place group }
    {
        match group {
            Closed::Whole(message) => {
                let outcome = self.outcome_of(&message);
                Closing::Whole(message, outcome)
            }
            Closed::Broken(broken) => {
                let meant = self.links.meant(&broken.group, broken.linked);
                Closing::Broken(broken, meant)
            }
        }
    }

    // .. of one, if one closes.
    fn closing_if(&self, group: Option<Closed>) -> Option<Closing>
        ensures { result ≡ closing_if self.now.links self.now.place group }
    {
        match group {
            Some(group) => Some(self.closing(group)),
            None => None,
        }
    }
}

impl<T: ProfileStores> TracksideOver<T> {
    // The track once a group has closed that an event ended, which `parts` has seen up to there: its packets may bring
    // the links by which the next group is judged. It has so many packets at most.
    fn once_closed(
        &self,
        alloc: Global,
        mode: Mode,
        parts: Parts,
        ended: &Option<Closed>,
        packets: usize,
    ) -> Result<Self, NoMemory>
        requires { packets_of_closed ended.now ≤ packets }
        ensures stands { IfOk result (λ next. (life : Life) (initial : InputEffect) (happened : HasHappened)
            → StandsForColumns T.stores self.now life
            → parts ≡ columns_of (grown_so_far life initial (record { groups = []; happened = happened }))
            → StandsForColumns T.stores next
            (grown_so_far life initial (with_closed mode life.entries initial ended.now (record { groups = []; happened = happened })))) }
        ensures quiet { size_in T.stores self.now ≡ 0 → packets ≤ space_in T.stores self.now → IsOk result }
    {
        let mut next = self.copy(alloc)?;
        next.make_space(packets)?;
        next.parts = parts;
        next.close(mode, ended);
        Ok(next)
    }

    // What becomes of two groups that an event closes, which `parts` has seen up to there. No copy is made where the
    // first closes nothing.
    fn closings_of(
        &self,
        alloc: Global,
        mode: Mode,
        parts: Parts,
        ended: Option<Closed>,
        whole: Option<Closed>,
        packets: usize,
    ) -> Result<Closings, NoMemory>
        requires { packets_of_closed ended ≤ packets }
        ensures closings { IfOk result (λ closings. (life : Life) (initial : InputEffect) (happened : HasHappened)
            → StandsForColumns T.stores self.now life
            → (let first : Used = record { groups = []; happened = happened } in
            parts ≡ columns_of (grown_so_far life initial first)
            → all_of closings ≡ closings_in life.entries initial
            (with_closed mode life.entries initial whole (with_closed mode life.entries initial ended first)).groups)) }
        ensures quiet { size_in T.stores self.now ≡ 0 → packets ≤ space_in T.stores self.now → IsOk result }
    {
        let Some(second) = whole else {
            return Ok(Closings {
                ended: parts.closing_if(ended),
                whole: None,
            });
        };
        if ended.is_none() {
            return Ok(Closings {
                ended: None,
                whole: Some(parts.closing(second)),
            });
        }
        let next = self.once_closed(alloc, mode, parts.copy(), &ended, packets)?;
        Ok(Closings {
            ended: parts.closing_if(ended),
            whole: Some(next.parts.closing(second)),
        })
    }

    // .. that a telegram closes. Bytes that carry none close none.
    fn closings_heard(&self, alloc: Global, mode: Mode, bytes: &[u8]) -> Result<Closings, NoMemory>
        ensures closings { IfOk result (λ closings. (life : Life) → StandsForColumns T.stores self.now life
            → all_of closings ≡ closings_in life.entries (heard life.entries bytes.now)
            (with_groups mode life.entries (heard life.entries bytes.now) nothing_happened).groups) }
        ensures quiet { size_in T.stores self.now ≡ 0 → HasSpaceFor T.stores self.now (inputs.Telegram bytes.now)
            → IsOk result }
    {
        let Ok(telegram) = Received::new(bytes) else {
            return Ok(Closings::NONE);
        };
        let packets = self.parts.groups.packets() + telegram.packets().len() as usize;
        let mut parts = self.parts.copy();
        let mut ended = None;
        let mut whole = None;
        parts.hear(telegram, &mut ended, &mut whole);
        self.closings_of(alloc, mode, parts, ended, whole, packets)
    }

    // .. that a movement closes: one at most.
    fn closings_left(&self, reading: &Reading) -> Closings
        ensures { (life : Life) (mode : AMode) → StandsForColumns T.stores self.now life
            → all_of result ≡ closings_in life.entries (moved life.entries reading.now)
            (with_groups mode life.entries (moved life.entries reading.now) (happened_by life.entries reading.now)).groups }
    {
        if self.parts.is_idle() {
            return Closings::NONE;
        }
        let mut parts = self.parts.copy();
        if !parts.go(reading) {
            return Closings::NONE;
        }
        let ended = parts.leave();
        Closings {
            ended: parts.closing_if(ended),
            whole: None,
        }
    }

    /// What becomes of each group that an input would close as the next event in a mode, in their order (SUBSET-026,
    /// 3.4.4 and 3.16.2). Nothing changes. It works on a copy where two groups close, since the packets of the first
    /// may bring the links by which the second is judged: NoMemory where memory is refused for that. None is taken
    /// where no restriction and no profile is kept, nor space for one, of an input that uses no packet.
    pub fn closings_by(
        &self,
        alloc: Global,
        mode: Mode,
        input: &Input,
    ) -> Result<Closings, NoMemory>
        ensures closings { IfOk result (λ closings. (life : Life) → StandsForLife T.stores self.now life
            → all_of closings ≡ closings_by mode life.entries input.now) }
        ensures quiet { size_in T.stores self.now ≡ 0 → HasSpaceFor T.stores self.now input.now → IsOk result }
    {
        match input {
            Input::Telegram(bytes) => self.closings_heard(alloc, mode, bytes.as_slice()),
            Input::Odometer(reading) => Ok(self.closings_left(reading)),
            Input::Clock(_) | Input::Driver(_) => Ok(Closings::NONE),
        }
    }
}
