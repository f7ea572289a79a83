//! Readings come in one by one, and groups go out as they end (this project's profile).
ghost use Rattle.std.specs.Prelude.{◌≡◌, ◌+◌, ◌≤◌, ℕ, List, [], ◌∷◌, None, is_none, false};
ghost use Rattle.balise_groups.specs.Closing.{close_of};
ghost use Rattle.balise_groups.specs.Groups.{GroupEntry, Groups, KnownGroups, seen_at, is_close, is_passed, goes_on, ended, ended_if_whole, joined_by, close_if_whole, with_reading, known_of, known, being_read, taken_by, ended_by};
ghost use Rattle.balise_groups.specs.Groups.GroupEntry.{Read, Went};
ghost use Rattle.balise_groups.specs.PacketCounts.{most_packets, packets_at, packets_in, packets_of_closed, packets_of_taken};

mod hearing;

use crate::closing::empty;
use crate::message::Closed;
use crate::reading::Reading;
use crate::readings::Readings;
pub use hearing::Hearing;
use std::marker::Model;
use units::Length;
use vars::GroupIdentity;

/// How far beyond its last telegram a group is still the same one, in centimetres of path.
const GROUP_PATH: u64 = 1_300;

/// A group, and the path of the life at a telegram of it (SUBSET-026, 3.4.1).
#[derive(Clone, Copy)]
pub struct Seen {
    /// The group of the telegram.
    pub group: GroupIdentity,
    /// The path of the life at it, in centimetres.
    pub path: Length,
}

/// What closes at a reading: the group that it ended, and its own where that is whole now (when a group ends: this
/// project's profile).
#[derive(Drop)]
pub struct Taken {
    /// The group that the reading ended.
    pub ended: Option<Closed>,
    /// The reading's own group, where it is whole now.
    pub whole: Option<Closed>,
}

/// Puts the readings of a life together to groups (SUBSET-026, 3.4.1 to 3.4.3; when a group ends: this project's
/// profile). Its calls take no memory.
#[derive(Drop)]
pub struct Assembler {
    // The readings of the group being read that count, and its newest telegram.
    readings: Readings,
    current: Option<Seen>,
    // The newest telegram of the group that closed last.
    last: Option<Seen>,
}

impl Model for Assembler {
    ghost use Rattle.balise_groups.specs.Groups.{KnownGroups};

    ghost Value = { KnownGroups };

    ghost view = { λ a. record { readings = a.readings; current = a.current; last = a.last } };
}

fn seen_at(reading: &Reading) -> Seen
    ensures { result ≡ seen_at reading.now }
{
    Seen {
        group: reading.telegram.header().group,
        path: reading.sums.path(),
    }
}

// Whether a path of the life is still close after a telegram.
fn is_close(path: Length, seen: &Seen) -> bool
    ensures { result ≡ is_close path seen.now }
{
    path.get() <= seen.path.get() + GROUP_PATH
}

// Whether the train has left a group, at this path of the life.
fn is_passed(path: Length, group: &Option<Seen>) -> bool
    ensures { result ≡ is_passed path group.now }
{
    match group {
        None => false,
        Some(seen) => !is_close(path, seen),
    }
}

// Whether a reading is of a group that the train hasn't left.
fn goes_on(reading: &Reading, group: &Option<Seen>) -> bool
    ensures { result ≡ goes_on reading.now group.now }
{
    match group {
        None => false,
        Some(seen) => {
            reading.telegram.header().group == seen.group && is_close(reading.sums.path(), seen)
        }
    }
}

impl Assembler {
    /// Nothing was read yet.
    pub fn new() -> Self
        ensures { result ≡ known [] }
    {
        Assembler {
            readings: Readings::new(),
            current: None,
            last: None,
        }
    }

    /// Takes a reading, and answers what closes at it: no more packets than `packets` counts and the reading's own. The
    /// caller owes the readings of a life in order, each with the sums of its moment, and each movement to `moved`.
    pub fn take(&mut self, reading: Reading) -> Taken
        ensures answer { result ≡ taken_by reading self.old }
        ensures few { packets_of_taken result ≤ packets_in self.old.readings + packets_at reading }
        ensures stands { (entries : List GroupEntry) → self.old ≡ known entries → self.new ≡ known (Read reading ∷ entries) }
    {
        let mut ended = None;
        let mut whole = None;
        self.take_into(reading, &mut ended, &mut whole);
        Taken { ended, whole }
    }

    /// What `take` does, with its answer in places that the caller has, whatever they held: the group that the reading
    /// ended, and its own where that is whole now.
    pub fn take_into(
        &mut self,
        reading: Reading,
        ended: &mut Option<Closed>,
        whole: &mut Option<Closed>,
    )
        ensures ended { ended.new ≡ (taken_by reading self.old).ended }
        ensures whole { whole.new ≡ (taken_by reading self.old).whole }
        ensures few { packets_of_closed ended.new + packets_of_closed whole.new ≤ packets_in self.old.readings + packets_at reading }
        ensures stands { (entries : List GroupEntry) → self.old ≡ known entries → self.new ≡ known (Read reading ∷ entries) }
    {
        if goes_on(&reading, &self.last) {
            self.last = Some(seen_at(&reading));
            empty(ended);
            empty(whole);
            return;
        }
        if goes_on(&reading, &self.current) {
            empty(ended);
        } else {
            self.end(ended);
        }
        self.join(reading, whole);
    }

    /// Whether the group being read is left at a path of the life, in centimetres: more than 1,300 cm beyond its last
    /// telegram. While it isn't, `moved` answers None and changes nothing; its answer has space for a whole message, so
    /// who asks at each movement asks this first.
    pub fn is_leaving(&self, path: Length) -> bool
        ensures answer { result ≡ is_passed path self.now.current }
        ensures none { result ≡ false → ended_by path self.now ≡ None }
        ensures stands { result ≡ false → (entries : List GroupEntry) → self.now ≡ known entries
            → self.now ≡ known (Went path ∷ entries) }
    {
        is_passed(path, &self.current)
    }

    /// Whether no group is being read, so that no movement closes one.
    pub fn is_idle(&self) -> bool
        ensures { result ≡ is_none self.now.current }
    {
        self.current.is_none()
    }

    /// The group being read; None where none is.
    pub fn group(&self) -> Option<GroupIdentity>
        ensures { result ≡ being_read self.now }
    {
        match &self.current {
            None => None,
            Some(seen) => Some(seen.group),
        }
    }

    /// How many packets the telegrams of the group being read have, at most 264.
    pub fn packets(&self) -> usize
        ensures number { result ≡ packets_in self.now.readings }
        ensures few { result ≤ most_packets }
    {
        self.readings.packets()
    }

    /// Takes the path of the life after a movement, in centimetres, and answers the group that is left by it, if one
    /// is: no more packets than `packets` counts. The caller owes each movement.
    pub fn moved(&mut self, path: Length) -> Option<Closed>
        ensures answer { result ≡ ended_by path self.old }
        ensures few { packets_of_closed result ≤ packets_in self.old.readings }
        ensures stands { (entries : List GroupEntry) → self.old ≡ known entries → self.new ≡ known (Went path ∷ entries) }
    {
        let mut left = None;
        if self.is_leaving(path) {
            self.end(&mut left);
        }
        left
    }

    /// An equal value.
    pub fn copy(&self) -> Self
        ensures { result ≡ self.now }
    {
        Assembler {
            readings: self.readings.copy(),
            current: self.current,
            last: self.last,
        }
    }

    // The group being read ends, if there is one; what it closes to goes into a place that the caller has.
    fn end(&mut self, closed: &mut Option<Closed>)
        ensures answer { closed.new ≡ close_of self.old.readings }
        ensures none { self.new.readings ≡ [] }
        ensures stands { (groups : Groups) → self.old ≡ known_of groups → self.new ≡ known_of (ended groups) }
    {
        self.readings.close(closed);
        self.readings.clear();
        if self.current.is_some() {
            self.last = self.current;
            self.current = None;
        }
    }

    // One more telegram of the group being read, which may make it whole.
    fn join(&mut self, reading: Reading, whole: &mut Option<Closed>)
        ensures answer { whole.new ≡ close_if_whole (with_reading self.old.readings reading) }
        ensures stands { (groups : Groups) → self.old ≡ known_of groups → self.new ≡ known_of (joined_by reading groups) }
    {
        self.current = Some(seen_at(&reading));
        self.readings.add(reading);
        if self.readings.are_whole() {
            self.end(whole);
        } else {
            empty(whole);
        }
    }
}
