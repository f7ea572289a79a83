//! Segments in a list: values are looked up, steps are taken in, and what lies before a mark is dropped.
ghost use Rattle.std.specs.Prelude.{◌≡◌, ℕ, IsTrue, IsSome, IfSome, ◌+◌, ◌<◌, ◌≤◌, ℤ, ◌≤ℤ◌, ◌<ℤ◌, false, if◌then◌else◌, int_lt, is_none, Some, ◌||◌, ◌↔◌, None, length, filter, take, drop, vec_len, vec_capacity};
ghost use Rattle.std.specs.List.{AllWithin, list_any};
ghost use Rattle.track_store.specs.Facts.{from_mark, passed, replaced};
ghost use Rattle.track_store.specs.Profiles.{HoldsOver, IsKnownThroughout};
ghost use Rattle.track_store.specs.Segments.{value_of_segments, value_at_end, next_among, IsRising, IsStarted, IsStartedBelow, IsKept, IsKeptAfterFirst, is_first_passed, first_cut, is_reached};

use crate::{Piece, PieceBefore, Same, Step};
use units::Cm;

/// A piece of a profile with one value: from its start up to the next one's start, the last one without end
/// (SUBSET-026, 3.11; packets 21 and 27 of 7.4.2 give profiles so).
#[derive(Clone, Copy)]
pub struct Segment<T> {
    /// Where it begins, in centimetres.
    pub start: Cm,
    /// The value; None where nothing is known.
    pub value: Option<T>,
}

// How many segments start at or below a place.
fn started<T: Copy>(segments: &[Segment<T>], place: Cm) -> usize
    requires { IsRising segments.now }
    ensures { IsStarted place segments.now result }
{
    segments.partition_point(|segment| segment.start <= place)
}

// The piece of the segment at an index, if a place lies in that one.
fn piece_in<T: Copy>(segments: &[Segment<T>], place: Cm, index: usize) -> Option<Piece<T>>
    requires { IsRising segments.now }
    ensures { IfSome result (λ piece. (piece.value ≡ value_of_segments segments.now place) × (piece.next ≡ next_among place segments.now)) }
{
    let segment = segments.get(index)?;
    if place < segment.start {
        return None;
    }
    let near = index + 1;
    match segments.get(near) {
        Some(beyond) if place < beyond.start => Some(Piece {
            value: segment.value,
            next: Some(beyond.start),
            near,
        }),
        Some(_) => None,
        None => Some(Piece {
            value: segment.value,
            next: None,
            near,
        }),
    }
}

// The value of the last of so many segments.
fn last_value<T: Copy>(segments: &[Segment<T>], count: usize) -> Option<T>
    ensures { (place : ℤ) → IsStarted place segments.now count → result ≡ value_of_segments segments.now place }
{
    let last = segments.get(count.checked_sub(1)?)?;
    last.value
}

// The start of the first segment after so many.
fn start_beyond<T: Copy>(segments: &[Segment<T>], count: usize) -> Option<Cm>
    ensures { (place : ℤ) → IsStarted place segments.now count → result ≡ next_among place segments.now }
{
    let next = segments.get(count)?;
    Some(next.start)
}

/// The value of the last segment that starts at or below a place.
pub(crate) fn value_at<T: Copy>(segments: &[Segment<T>], place: Cm) -> Option<T>
    requires { IsRising segments.now }
    ensures { result ≡ value_of_segments segments.now place }
{
    last_value(segments, started(segments, place))
}

/// The start of the first segment ahead of a place.
pub(crate) fn next_start<T: Copy>(segments: &[Segment<T>], place: Cm) -> Option<Cm>
    requires { IsRising segments.now }
    ensures { result ≡ next_among place segments.now }
{
    start_beyond(segments, started(segments, place))
}

/// Both. It tries the segment at an index first, and searches only where the place lies in another one.
pub(crate) fn piece_at<T: Copy>(segments: &[Segment<T>], place: Cm, near: usize) -> Piece<T>
    requires { IsRising segments.now }
    ensures value { result.value ≡ value_of_segments segments.now place }
    ensures next { result.next ≡ next_among place segments.now }
{
    if let Some(piece) = piece_in(segments, place, near) {
        return piece;
    }
    let count = started(segments, place);
    Piece {
        value: last_value(segments, count),
        next: start_beyond(segments, count),
        near: count,
    }
}

// The value after all starts.
fn value_at_end<T: Copy>(segments: &[Segment<T>]) -> Option<T>
    ensures { result ≡ value_at_end None segments.now }
{
    segments.last()?.value
}

// Whether there is no value at both, or an equal one.
fn is_same<T: Same>(one: &Option<T>, other: &Option<T>) -> bool
    ensures { IsTrue result ↔ (one.now ≡ other.now) }
{
    match (one, other) {
        (Some(one), Some(other)) => one.is_same(other),
        (None, None) => true,
        _ => false,
    }
}

// How many segments start below a place: those that do are the first ones.
fn started_below<T: Copy>(segments: &[Segment<T>], place: Cm) -> usize
    requires { IsRising segments.now }
    ensures started { IsStartedBelow place segments.now result }
    ensures front { filter (λ segment. int_lt segment.start place) segments.now ≡ take result segments.now }
{
    segments.partition_point(|segment| segment.start < place)
}

// Whether there are so many segments, and those start below a place.
fn all_below_up_to<T: Copy>(segments: &[Segment<T>], place: Cm, count: usize) -> bool
    requires { IsRising segments.now }
    ensures { IsTrue result → (count ≤ length segments.now)
        × AllWithin (λ segment. segment.start <ℤ place) segments.now 0 count }
{
    let Some(last) = count.checked_sub(1) else {
        return true;
    };
    match segments.get(last) {
        Some(last) => last.start < place,
        None => false,
    }
}

// Whether no segment from an index on starts below a place.
fn none_below_from<T: Copy>(segments: &[Segment<T>], place: Cm, index: usize) -> bool
    requires { IsRising segments.now }
    ensures { IsTrue result → AllWithin (λ segment. place ≤ℤ segment.start) segments.now index (length segments.now) }
{
    match segments.get(index) {
        Some(first) => place <= first.start,
        None => true,
    }
}

// How many segments start below a place. A guess that is right saves the search.
fn counted_below<T: Copy>(segments: &[Segment<T>], place: Cm, guess: usize) -> usize
    requires { IsRising segments.now }
    ensures { IsStartedBelow place segments.now result }
{
    if all_below_up_to(segments, place, guess) && none_below_from(segments, place, guess) {
        return guess;
    }
    started_below(segments, place)
}

// The piece of the last of so many segments, cut off at a least place.
fn last_piece<T: Copy>(segments: &[Segment<T>], least: Cm, count: usize) -> PieceBefore<T>
    requires { IsRising segments.now }
    ensures within { least ≤ℤ result.from }
    ensures before { (place : ℤ) → IsStartedBelow place segments.now count → least <ℤ place → result.from <ℤ place }
    ensures value { (place : ℤ) → IsStartedBelow place segments.now count
        → HoldsOver (value_of_segments segments.now) result.value result.from place }
{
    match segments.get(..count) {
        Some([front @ .., last]) => PieceBefore {
            value: last.value,
            from: last.start.max(least),
            near: front.len(),
        },
        _ => PieceBefore {
            value: None,
            from: least,
            near: 0,
        },
    }
}

/// The piece that ends at a place, from a least place on. The number is a guess how many segments start below the
/// place: one that is right saves a search. The caller owes a least place before the other one.
pub(crate) fn piece_up_to<T: Copy>(
    segments: &[Segment<T>],
    place: Cm,
    least: Cm,
    near: usize,
) -> PieceBefore<T>
    requires rising { IsRising segments.now }
    requires ahead { least <ℤ place }
    ensures within { least ≤ℤ result.from }
    ensures before { result.from <ℤ place }
    ensures value { HoldsOver (value_of_segments segments.now) result.value result.from place }
{
    last_piece(segments, least, counted_below(segments, place, near))
}

// Whether each segment from an index up to another one has a value.
fn all_have_values<T: Copy>(segments: &[Segment<T>], first: usize, end: usize) -> bool
    requires { (first ≤ end) × (end ≤ length segments.now) }
    ensures { IsTrue result ↔ AllWithin (λ segment. IsSome segment.value) segments.now first end }
{
    for segment in &segments[first..end] {
        if segment.value.is_none() {
            return false;
        }
    }
    true
}

/// Whether each centimetre from one up to another, that one not included, has a value. It costs a look at each segment
/// between.
pub(crate) fn all_known<T: Copy>(segments: &[Segment<T>], from: Cm, end: Cm) -> bool
    requires { IsRising segments.now }
    ensures { IsTrue result ↔ IsKnownThroughout (value_of_segments segments.now) from end }
{
    if end <= from {
        return true;
    }
    match started(segments, from).checked_sub(1) {
        Some(first) => all_have_values(segments, first, started_below(segments, end)),
        None => false,
    }
}

// Drops the segments that start at a place or after it. Those that stay aren't gone through.
fn drop_from<T: Copy>(segments: &mut Vec<Segment<T>>, place: Cm)
    requires { IsRising segments.old.items }
    ensures items { segments.new.items ≡ filter (λ segment. int_lt segment.start place) segments.old.items }
    ensures len { vec_len segments.new ≤ vec_len segments.old }
    ensures capacity { vec_capacity segments.new ≡ vec_capacity segments.old }
{
    let count = started_below(segments, place);
    segments.truncate(count);
}

// Takes one value from a place on, in place of all segments there. The list has space for one more.
fn hold_from<T: Copy + Same>(segments: &mut Vec<Segment<T>>, place: Cm, value: Option<T>)
    requires kept { IsKept segments.old.items }
    requires space { vec_len segments.old < vec_capacity segments.old }
    ensures value { (there : ℤ) → value_of_segments segments.new.items there
        ≡ (if int_lt there place then value_of_segments segments.old.items there else value) }
    ensures kept { IsKept segments.new.items }
    ensures len { vec_len segments.new ≤ vec_len segments.old + 1 }
    ensures capacity { vec_capacity segments.new ≡ vec_capacity segments.old }
{
    drop_from(segments, place);
    if !is_same(&value_at_end(segments), &value) {
        segments.push_reserved(Segment {
            start: place,
            value,
        });
    }
}

// The first place of end marks; None where there is none.
fn first_end<T: Copy>(steps: &[Step<T>]) -> Option<Cm>
    ensures { (place : ℤ) → list_any (λ step. is_none step.value) (passed place steps.now)
        ≡ is_reached place result }
{
    let mut first = None;
    for step in steps {
        if step.value.is_none() {
            first = Some(first_of(first, step.place));
        }
    }
    first
}

// The first of a place and of another one, if there is one.
fn first_of(first: Option<Cm>, place: Cm) -> Cm
    ensures { (there : ℤ) → is_reached there (Some result)
        ≡ (is_reached there first || is_reached there (Some place)) }
{
    match first {
        Some(first) if first < place => first,
        _ => place,
    }
}

/// Takes what steps give from a first place on, in place of all segments there. Each step holds from its place on,
/// whatever the order of their places, and the first place of end marks ends them all. The list has space for them all.
pub(crate) fn hold_steps<T: Copy + Same>(
    segments: &mut Vec<Segment<T>>,
    start: Cm,
    steps: &[Step<T>],
)
    requires kept { IsKept segments.old.items }
    requires space { vec_len segments.old + length steps.now + 2 ≤ vec_capacity segments.old }
    ensures value { (place : ℤ) → value_of_segments segments.new.items place
        ≡ replaced (value_of_segments segments.old.items) start steps.now place }
    ensures kept { IsKept segments.new.items }
    ensures len { vec_len segments.new ≤ vec_len segments.old + length steps.now + 2 }
    ensures capacity { vec_capacity segments.new ≡ vec_capacity segments.old }
{
    hold_from(segments, start, None);
    for step in steps {
        hold_from(segments, start.max(step.place), step.value);
    }
    if let Some(end) = first_end(steps) {
        hold_from(segments, start.max(end), None);
    }
}

// Whether the first segment lies wholly before a mark.
fn is_first_passed<T: Copy>(segments: &[Segment<T>], mark: Cm) -> bool
    ensures { result ≡ is_first_passed mark segments.now }
{
    match segments {
        [_, second, ..] => second.start <= mark,
        _ => false,
    }
}

// Drops so many segments at the front. The others are moved once, however many go.
fn drop_front<T: Copy>(segments: &mut Vec<Segment<T>>, count: usize)
    requires { count ≤ vec_len segments.old }
    ensures items { segments.new.items ≡ drop count segments.old.items }
    ensures len { vec_len segments.new ≤ vec_len segments.old }
    ensures capacity { vec_capacity segments.new ≡ vec_capacity segments.old }
{
    let left = segments.len() - count;
    segments.copy_within(count.., 0);
    segments.truncate(left);
}

// Drops the segments that lie wholly before a mark. Where the mark follows the train there are none or one mostly, so
// it searches only where there is one.
fn drop_passed<T: Copy>(segments: &mut Vec<Segment<T>>, mark: Cm)
    requires { IsKeptAfterFirst segments.old.items }
    ensures value { (place : ℤ) → from_mark mark (value_of_segments segments.new.items) place
        ≡ from_mark mark (value_of_segments segments.old.items) place }
    ensures kept { IsKeptAfterFirst segments.new.items }
    ensures len { vec_len segments.new ≤ vec_len segments.old }
    ensures capacity { vec_capacity segments.new ≡ vec_capacity segments.old }
    ensures none { is_first_passed mark segments.new.items ≡ false }
{
    if is_first_passed(segments, mark) {
        let passed = started(segments, mark).saturating_sub(1);
        drop_front(segments, passed);
    }
}

// Cuts off what of the first segment lies before a mark.
fn cut_first<T: Copy>(segments: &mut [Segment<T>], mark: Cm)
    ensures { segments.new ≡ first_cut mark segments.old }
{
    if let [first, ..] = segments {
        first.start = first.start.max(mark);
    }
}

// Drops the first segment where it has no value.
fn drop_gap<T: Copy>(segments: &mut Vec<Segment<T>>)
    requires { IsKeptAfterFirst segments.old.items }
    ensures value { (place : ℤ) → value_of_segments segments.new.items place ≡ value_of_segments segments.old.items place }
    ensures kept { IsKept segments.new.items }
    ensures len { vec_len segments.new ≤ vec_len segments.old }
    ensures capacity { vec_capacity segments.new ≡ vec_capacity segments.old }
{
    if let Some(first) = segments.first() {
        if first.value.is_none() {
            segments.remove(0);
        }
    }
}

/// Drops what lies before a mark.
pub(crate) fn drop_below<T: Copy>(segments: &mut Vec<Segment<T>>, mark: Cm)
    requires { IsKept segments.old.items }
    ensures value { (place : ℤ) → value_of_segments segments.new.items place
        ≡ from_mark mark (value_of_segments segments.old.items) place }
    ensures kept { IsKept segments.new.items }
    ensures len { vec_len segments.new ≤ vec_len segments.old }
    ensures capacity { vec_capacity segments.new ≡ vec_capacity segments.old }
{
    drop_passed(segments, mark);
    cut_first(segments, mark);
    drop_gap(segments);
}
