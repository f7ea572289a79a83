//! The list of announced groups, and what it answers to groups read, broken or missed.
ghost use Rattle.std.specs.Prelude.{◌≡◌, ◌≤◌, List, [], length, filter, not, ◌||◌, ◌∷◌};
ghost use Rattle.std.specs.List.{list_any};
ghost use Rattle.odometry.specs.Place.{min_front};
ghost use Rattle.linking.specs.Linking.{LinkEntry, known, numbered, takes, is_any, is_passed_by, misses, after_misses};
ghost use Rattle.linking.specs.Linking.LinkEntry.{Announced, Accepted, Reacted};
ghost use Rattle.linking.specs.Judging.{first_of, judgement, judged_by, after_verdict, after_judgement, meant, broken_effect, after_broken, is_before};

use crate::{Announcement, Effect, GroupRead, Judgement, Verdict};
use arrayvec::ArrayVec;
use odometry::Place;
use std::marker::Model;
use units::Cm;
use vars::GroupIdentity;

/// How many groups a list of links announces at most: the first element of packet 5 and the 31 after it.
pub const MOST_ANNOUNCED: usize = 32;

/// The announced groups that are left, and whether one was missed since the last that was accepted (SUBSET-026, 3.4.4).
/// Its calls take no memory.
#[derive(Drop)]
pub struct Links {
    // In the order of their list.
    left: ArrayVec<Announcement, MOST_ANNOUNCED>,
    has_missed: bool,
}

impl Model for Links {
    ghost use Rattle.linking.specs.Linking.{KnownLinks, IsRising};

    ghost Value = { KnownLinks };

    ghost view = { λ l. record { left = l.left.items; has_missed = l.has_missed } };

    ghost invariant = { λ l. IsRising l.left.items };
}

impl Links {
    /// No group is announced, and none was missed.
    pub fn new() -> Self
        ensures { result ≡ known [] }
    {
        Links {
            left: ArrayVec::new(),
            has_missed: false,
        }
    }

    /// Takes a list of links in place of the one before, and numbers it from 0; an empty one deletes linking. Whether
    /// one was missed stays.
    pub fn replace(&mut self, announcements: &ArrayVec<Announcement, MOST_ANNOUNCED>)
        ensures { (entries : List LinkEntry) → self.old ≡ known entries
            → self.new ≡ known (Announced announcements.now.items ∷ entries) }
    {
        self.left = numbered(announcements.as_slice());
    }

    /// Deletes linking, as an empty list of links does. Whether one was missed stays.
    pub fn clear(&mut self)
        ensures { (entries : List LinkEntry) → self.old ≡ known entries → self.new ≡ known (Announced [] ∷ entries) }
    {
        self.left.clear();
    }

    /// Judges a whole group that was read. An accepted group takes its announcement and all before it out of the list.
    /// One that is found too early or in the wrong direction takes out its own.
    pub fn judge(&mut self, group: &GroupRead) -> Judgement
        ensures answer { result ≡ judgement self.old group.now }
        ensures stands { (entries : List LinkEntry) → self.old ≡ known entries
            → self.new ≡ known (after_judgement (judgement self.old group.now) entries) }
    {
        let judgement = self.judged(group);
        self.follow(&judgement.verdict);
        judgement
    }

    /// What `judge` would answer to a whole group that was read. Nothing changes.
    pub fn judged(&self, group: &GroupRead) -> Judgement
        ensures { result ≡ judgement self.now group.now }
    {
        if !group.linked || !self.is_in_use() {
            return Judgement {
                verdict: Verdict::Accept(None),
                effect: Effect::NONE,
            };
        }
        match self.first_of(&group.group) {
            None => Judgement {
                verdict: Verdict::Ignore,
                effect: Effect::NONE,
            },
            Some(announcement) => self.judged_by(group, announcement),
        }
    }

    /// The announcement that a broken group would take with it: the first one of the group that is left, where the
    /// group is linked.
    pub fn meant(&self, group: &GroupIdentity, linked: bool) -> Option<Announcement>
        ensures { result ≡ meant self.now group.now linked }
    {
        if linked { self.first_of(group) } else { None }
    }

    /// Takes note of a broken group and answers what it asks for (3.16.2; this project's profile). `linked` is its
    /// Q_LINK: without it the service brake, with it the reaction that is announced for it, or nothing where none is.
    /// An announced one is taken out of the list.
    pub fn broken(&mut self, group: GroupIdentity, linked: bool) -> Effect
        ensures answer { result ≡ broken_effect self.old group linked }
        ensures stands { (entries : List LinkEntry) → self.old ≡ known entries
            → self.new ≡ known (after_broken self.old group linked entries) }
    {
        if !linked {
            return Effect::SERVICE;
        }
        match self.first_of(&group) {
            None => Effect::NONE,
            Some(announcement) => {
                self.remove(announcement.number);
                Effect::of(announcement.reaction)
            }
        }
    }

    /// Drops the announcements whose last possible place the minimum safe front has passed, and answers what they ask
    /// for; the second miss in turn asks for the service brake. `min_front` is the minimum safe front, in centimetres.
    /// The caller asks once at each odometer reading.
    pub fn missed(&mut self, min_front: Cm) -> Effect
        ensures answer { result ≡ misses self.old.has_missed (filter (is_passed_by min_front) self.old.left) }
        ensures stands { (entries : List LinkEntry) → self.old ≡ known entries
            → self.new ≡ known (after_misses (filter (is_passed_by min_front) self.old.left) entries) }
    {
        if !is_any_passed(self.left.as_slice(), min_front) {
            return Effect::NONE;
        }
        let effect = effect_of_passed(self.left.as_slice(), min_front, self.has_missed);
        self.has_missed = self.has_missed_passed(min_front);
        forget_passed(&mut self.left, min_front);
        effect
    }

    /// What `missed` does where the minimum safe front of a place is. Where no group is left it isn't worked out.
    pub fn missed_at(&mut self, place: &Place) -> Effect
        ensures answer { result ≡ misses self.old.has_missed (filter (is_passed_by (min_front place.now)) self.old.left) }
        ensures stands { (entries : List LinkEntry) → self.old ≡ known entries
            → self.new ≡ known (after_misses (filter (is_passed_by (min_front place.now)) self.old.left) entries) }
    {
        if self.left.is_empty() {
            return Effect::NONE;
        }
        self.missed(place.min_front())
    }

    /// Whether linking is in use: whether an announced group is left.
    pub fn is_in_use(&self) -> bool
        ensures { result ≡ is_any self.now.left }
    {
        !self.left.is_empty()
    }

    /// The announcements that are left, in the order of their list.
    pub fn left(&self) -> &[Announcement]
        ensures { result.now ≡ self.now.left }
    {
        self.left.as_slice()
    }

    /// Whether a group was missed since the last that was accepted as announced, or else since the life began.
    pub fn has_missed(&self) -> bool
        ensures { result ≡ self.now.has_missed }
    {
        self.has_missed
    }

    /// An equal value.
    pub fn copy(&self) -> Self
        ensures { result ≡ self.now }
    {
        Links {
            left: ArrayVec::try_from(self.left.as_slice()).unwrap(),
            has_missed: self.has_missed,
        }
    }
}

/// The parts of a judgement.
impl Links {
    // The first announcement of a group that is left.
    fn first_of(&self, group: &GroupIdentity) -> Option<Announcement>
        ensures { result ≡ first_of group.now self.now.left }
    {
        self.left
            .as_slice()
            .iter()
            .copied()
            .find(|a| a.is_of(group))
    }

    // The same of a group that is announced.
    fn judged_by(&self, group: &GroupRead, announcement: Announcement) -> Judgement
        ensures { result ≡ judged_by self.now group.now (Some announcement) }
    {
        if announcement.is_wrong_way(group.direction) {
            return Judgement {
                verdict: Verdict::Reaction(announcement),
                effect: Effect::TRIP,
            };
        }
        if announcement.is_too_early(group) {
            return Judgement {
                verdict: Verdict::Reaction(announcement),
                effect: Effect::of(announcement.reaction),
            };
        }
        Judgement {
            verdict: Verdict::Accept(Some(announcement)),
            effect: effect_before(self.left.as_slice(), announcement.number, self.has_missed),
        }
    }

    // Drops the announcements that a verdict takes.
    fn follow(&mut self, verdict: &Verdict)
        ensures { (entries : List LinkEntry) → self.old ≡ known entries
            → self.new ≡ known (after_verdict verdict.now entries) }
    {
        match verdict {
            Verdict::Accept(None) | Verdict::Ignore => {}
            Verdict::Accept(Some(announcement)) => self.accept(announcement.number),
            Verdict::Reaction(announcement) => self.remove(announcement.number),
        }
    }

    // Whether one was missed since the last acceptance, once those are missed that the minimum safe front has passed.
    fn has_missed_passed(&self, min_front: Cm) -> bool
        ensures { result ≡ (self.now.has_missed || list_any (is_passed_by min_front) self.now.left) }
    {
        self.has_missed || is_any_passed(self.left.as_slice(), min_front)
    }

    // Drops the announcements up to a number, whose group was accepted.
    fn accept(&mut self, number: u8)
        ensures { (entries : List LinkEntry) → self.old ≡ known entries
            → self.new ≡ known (Accepted number ∷ entries) }
    {
        self.has_missed = false;
        drop_up_to(&mut self.left, number);
    }

    // Drops the announcement of a number, whose group wasn't used or was broken.
    fn remove(&mut self, number: u8)
        ensures { (entries : List LinkEntry) → self.old ≡ known entries
            → self.new ≡ known (Reacted number ∷ entries) }
    {
        drop_number(&mut self.left, number);
    }
}

// The announcements, numbered from 0.
fn numbered(announcements: &[Announcement]) -> ArrayVec<Announcement, MOST_ANNOUNCED>
    requires { length announcements.now ≤ MOST_ANNOUNCED }
    ensures { result.items ≡ numbered announcements.now }
{
    let mut list = ArrayVec::new();
    for announcement in announcements {
        let number = list.len() as u8;
        list.push(Announcement {
            number,
            ..*announcement
        });
    }
    list
}

// What the announcements before a number ask for where they are missed.
fn effect_before(announcements: &[Announcement], number: u8, has_missed: bool) -> Effect
    ensures { result ≡ misses has_missed (filter (is_before number) announcements.now) }
{
    let mut missed = has_missed;
    let mut effect = Effect::NONE;
    for announcement in announcements {
        if announcement.is_before(number) {
            effect = effect.combined_with(announcement.miss(missed));
            missed = true;
        }
    }
    effect
}

// What the announcements that the minimum safe front has passed ask for where they are missed.
fn effect_of_passed(announcements: &[Announcement], min_front: Cm, has_missed: bool) -> Effect
    ensures { result ≡ misses has_missed (filter (is_passed_by min_front) announcements.now) }
{
    let mut missed = has_missed;
    let mut effect = Effect::NONE;
    for announcement in announcements {
        if announcement.is_passed_by(min_front) {
            effect = effect.combined_with(announcement.miss(missed));
            missed = true;
        }
    }
    effect
}

// Whether the minimum safe front has passed one of the announcements.
fn is_any_passed(announcements: &[Announcement], min_front: Cm) -> bool
    ensures { result ≡ list_any (is_passed_by min_front) announcements.now }
{
    announcements.iter().any(|a| a.is_passed_by(min_front))
}

// Drops the announcements that the minimum safe front has passed.
fn forget_passed(announcements: &mut ArrayVec<Announcement, MOST_ANNOUNCED>, min_front: Cm)
    ensures { announcements.new.items ≡ filter (λ a. not (is_passed_by min_front a)) announcements.old.items }
{
    announcements.retain(|a| !a.is_passed_by(min_front));
}

// Drops the announcements up to a number.
fn drop_up_to(announcements: &mut ArrayVec<Announcement, MOST_ANNOUNCED>, number: u8)
    ensures { announcements.new.items ≡ filter (λ a. not (takes (Accepted number) a.number)) announcements.old.items }
{
    announcements.retain(|a| number < a.number);
}

// Drops the announcement of a number.
fn drop_number(announcements: &mut ArrayVec<Announcement, MOST_ANNOUNCED>, number: u8)
    ensures { announcements.new.items ≡ filter (λ a. not (takes (Reacted number) a.number)) announcements.old.items }
{
    announcements.retain(|a| a.number != number);
}
