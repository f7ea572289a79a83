//! The traits of a profile: what is asked of it at a place, and how it is replaced, dropped and given space.
ghost use Rattle.std.specs.Prelude.{◌≡◌, ◌≤◌, ◌+◌, ◌↔◌, ℕ, ℤ, ◌≤ℤ◌, ◌<ℤ◌, max, length, Option, None, IsTrue, IsOk, OnOk, OnErr, IfOk};
ghost use Rattle.track_store.specs.Profiles as profiles;
ghost use Rattle.track_store.specs.Profiles.{Lasts, HoldsOver, IsKnownThroughout, profile_with};
ghost use Rattle.track_store.specs.Facts.{from_mark, replaced};

use std::alloc::Global;
use units::{Cm, NoMemory};

/// The most steps that a packet of a profile has (SUBSET-026, 7.4.2, packets 21 and 27).
pub const MOST_STEPS: usize = 32;

/// A step of a profile: from its place on, the value holds up to the next step's place.
#[derive(Clone, Copy)]
pub struct Step<T> {
    /// Where it begins, in centimetres.
    pub place: Cm,
    /// The value; None at an end mark, from which on there is none.
    pub value: Option<T>,
}

/// Fills unused elements.
impl<T> Default for Step<T> {
    fn default() -> Step<T> {
        Step {
            place: Cm::ZERO,
            value: None,
        }
    }
}

/// A piece of a profile: its value at a centimetre, and up to where that lasts.
#[derive(Clone, Copy)]
pub struct Piece<T> {
    /// The value; None where there is none.
    pub value: Option<T>,
    /// Where it ends, in centimetres, that place not included; None where it never does.
    pub next: Option<Cm>,
    /// What finds the piece after it sooner.
    pub near: usize,
}

/// A piece of a profile that ends at a place, that centimetre not included: its value, and from where that holds.
#[derive(Clone, Copy)]
pub struct PieceBefore<T> {
    /// The value; None where there is none.
    pub value: Option<T>,
    /// Where it begins, in centimetres.
    pub from: Cm,
    /// What finds the piece before it sooner.
    pub near: usize,
}

/// A value at each centimetre of the track, which changes now and then: a speed, a gradient (SUBSET-026, 3.11). Who
/// reads it goes from change to change, and so need not visit each centimetre.
pub trait Profile<T> {
    ghost value: { Self → ℤ → Option T };

    /// The value at a centimetre; None where there is none.
    fn at(&self, place: Cm) -> Option<T>
        ensures { result ≡ value self.now place };

    /// Up to where the value of a centimetre lasts: it stays the same up to the place that is answered, which lies
    /// ahead and isn't included; for ever where that is None.
    fn next(&self, place: Cm) -> Option<Cm>
        ensures { Lasts (value self.now) place result };

    /// What `at` and `next` answer for a centimetre, at once. Who goes from piece to piece hands in what the one before
    /// gave as near, and first 0; that bears on nothing but the cost.
    fn piece(&self, place: Cm, near: usize) -> Piece<T>
        ensures value { result.value ≡ value self.now place }
        ensures next { Lasts (value self.now) place result.next }
    {
        Piece {
            value: self.at(place),
            next: self.next(place),
            near,
        }
    }

    /// The value of the centimetre before a place, and from where on it holds up to there; nothing is asked of what
    /// lies before the least place. Who goes back from piece to piece hands in what the one after gave as near, and
    /// first 0; that bears on nothing but the cost. The caller owes a least place before the other one.
    fn piece_before(&self, place: Cm, least: Cm, near: usize) -> PieceBefore<T>
        requires { least <ℤ place }
        ensures within { least ≤ℤ result.from }
        ensures before { result.from <ℤ place }
        ensures value { HoldsOver (value self.now) result.value result.from place }
    {
        let last = Cm::new(place.get() - 1).unwrap_or(least);
        PieceBefore {
            value: self.at(last),
            from: last,
            near,
        }
    }
}

/// A profile that comes piece by piece, and forgotten behind the train (SUBSET-026, 3.7.1.1; 7.4.2, packets 21 and 27).
pub trait ProfileStore<T>: Profile<T> {
    ghost profile: { Self → profiles.Profile T };

    ghost space: { Self → ℕ };

    ghost with_space: { ℕ → Self → Self };

    ghost size: { Self → ℕ };

    /// No value anywhere. Takes no memory.
    fn empty(alloc: Global) -> Self
        ensures value { (place : ℤ) → Self.value result place ≡ None }
        ensures size { size result ≡ 0 };

    /// Takes the values from a first place on, in centimetres, in place of all that were there before. The last of the
    /// steps at or below a centimetre holds there, and nothing where an end mark or no step is at or below it. The
    /// space that was made stays. NoMemory where memory is refused, and then nothing changes.
    fn replace_from(&mut self, start: Cm, steps: &[Step<T>]) -> Result<(), NoMemory>
        ensures ok { OnOk result ((place : ℤ) → Self.value self.new place ≡ replaced (Self.value self.old) start steps.now place) }
        ensures space { OnOk result (space self.new ≡ space self.old) }
        ensures err { OnErr result (self.new ≡ self.old) };

    /// For how many replacements, of at most `MOST_STEPS` steps each, there is space.
    fn space(&self) -> usize
        ensures { result ≡ space self.now };

    /// Makes space for so many replacements, unless there is space for more. NoMemory where memory is refused, and then
    /// nothing changes.
    fn make_space(&mut self, replacements: usize) -> Result<(), NoMemory>
        ensures ok { OnOk result (self.new ≡ with_space (max replacements (space self.old)) self.old) }
        ensures err { OnErr result (self.new ≡ self.old) };

    /// Gives back space: what is left is for so many replacements. The caller owes no more than there is space for.
    fn limit_space(&mut self, replacements: usize)
        requires { replacements ≤ space self.old }
        ensures { self.new ≡ with_space replacements self.old };

    /// What `replace_from` does, in the space that was made: it takes no memory. The caller owes at most `MOST_STEPS`
    /// steps, and space for one replacement.
    fn replace_reserved(&mut self, start: Cm, steps: &[Step<T>])
        requires steps { length steps.now ≤ MOST_STEPS }
        requires space { 1 ≤ space self.old }
        ensures value { (place : ℤ) → Self.value self.new place ≡ replaced (Self.value self.old) start steps.now place }
        ensures space { space self.old ≤ space self.new + 1 };

    /// Whether each centimetre from one up to another, that one not included, has a value. It takes no memory.
    fn is_known_throughout(&self, from: Cm, end: Cm) -> bool
        ensures { IsTrue result ↔ IsKnownThroughout (Self.value self.now) from end };

    /// Drops the values below a place, in centimetres, and no other ones. What comes there later counts.
    fn drop_behind(&mut self, place: Cm)
        ensures value { (there : ℤ) → Self.value self.new there ≡ from_mark place (Self.value self.old) there }
        ensures space { space self.new ≡ space self.old }
        ensures size { size self.new ≤ size self.old };

    /// Drops all values.
    fn clear(&mut self)
        ensures value { (place : ℤ) → Self.value self.new place ≡ None }
        ensures space { space self.new ≡ space self.old }
        ensures size { size self.new ≤ size self.old };

    /// An equal value: an equal profile, with space for as many replacements. NoMemory where memory is refused; one of
    /// size 0 takes none.
    fn copy(&self, alloc: Global) -> Result<Self, NoMemory>
        ensures value { IfOk result (λ copy. copy ≡ self.now) }
        ensures quiet { size self.now ≡ 0 → IsOk result };

    ghost profile_is: { (store : Self) → profile store ≡ profile_with Self.value store };

    ghost same_profile: { (count : ℕ) (store : Self) → profile (with_space count store) ≡ profile store };

    ghost space_is: { (count : ℕ) (store : Self) → space (with_space count store) ≡ count };

    ghost space_again: { (one other : ℕ) (store : Self) → with_space one (with_space other store) ≡ with_space one store };

    ghost own_space: { (store : Self) → with_space (space store) store ≡ store };
}
