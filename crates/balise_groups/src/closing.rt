//! The readings of a group become its message, or the cause why it has none.
ghost use Rattle.std.specs.Prelude.{◌≡◌, ℕ, ◌+◌, ◌<◌, ◌≤◌, List, [], ◌∷◌, ◌++◌, length, map, None};
ghost use Rattle.std.specs.List.{list_any};
ghost use Rattle.balise_groups.specs.Description.{reported_by};
ghost use Rattle.balise_groups.specs.Closing.{all_below, is_at, is_read, is_whole, is_of_next, is_of_previous, covers, is_covered, same_flag, differs, disagrees, is_refused, cause_of, direction_of, reading_at, telegrams_at, telegrams_below, message_of, close_of};

use crate::group_packets::GroupPackets;
use crate::message::{Broken, Cause, Closed, Message};
use crate::reading::Reading;
use odometry::Sums;
use telegram::{Gathered, Header};
use vars::{Duplicate, LinkOrientation, Variable};

fn is_at(reading: &Reading, place: u64) -> bool
    ensures { result ≡ is_at place reading.now }
{
    reading.telegram.header().position.number() == place
}

/// Whether a place in the group, N_PIG, is among those of these readings.
pub fn was_read(readings: &[Reading], place: u64) -> bool
    ensures { result ≡ is_read readings.now place }
{
    for reading in readings {
        if is_at(reading, place) {
            return true;
        }
    }
    false
}

fn covers(reading: &Reading, place: u64) -> bool
    ensures { result ≡ covers place reading.now }
{
    let header = reading.telegram.header();
    let read = header.position.number();
    match header.duplicate {
        Duplicate::NoDuplicate => false,
        Duplicate::OfNext => read + 1 == place,
        Duplicate::OfPrevious => read == place.saturating_add(1),
    }
}

fn is_any_covering(readings: &[Reading], place: u64) -> bool
    ensures { result ≡ list_any (covers place) readings.now }
{
    for reading in readings {
        if covers(reading, place) {
            return true;
        }
    }
    false
}

fn is_covered(readings: &[Reading], place: u64) -> bool
    ensures { result ≡ is_covered readings.now place }
{
    was_read(readings, place) || is_any_covering(readings, place)
}

fn is_each_read(readings: &[Reading], places: u64) -> bool
    ensures { result ≡ all_below places (is_read readings.now) }
{
    for place in 0..places {
        if !was_read(readings, place) {
            return false;
        }
    }
    true
}

fn is_each_covered(readings: &[Reading], places: u64) -> bool
    ensures { result ≡ all_below places (is_covered readings.now) }
{
    for place in 0..places {
        if !is_covered(readings, place) {
            return false;
        }
    }
    true
}

// How many balises the group has, by N_TOTAL of its first telegram.
fn places(first: &Reading) -> u64
    ensures value { result ≡ first.now.telegram.header.last_position + 1 }
    ensures bound { result ≤ 8 }
{
    first.telegram.header().last_position.number() + 1
}

/// Whether each place up to the first reading's N_TOTAL is read.
pub fn are_all_read(readings: &[Reading]) -> bool
    ensures { result ≡ is_whole readings.now }
{
    match readings.first() {
        None => false,
        Some(first) => is_each_read(readings, places(first)),
    }
}

fn differs(first: &Reading, reading: &Reading) -> bool
    ensures { result ≡ differs first.now reading.now }
{
    let header = reading.telegram.header();
    let other = first.telegram.header();
    !(header.last_position == other.last_position && header.linked == other.linked)
}

fn is_mixed(first: &Reading, readings: &[Reading]) -> bool
    ensures { result ≡ list_any (differs first.now) readings.now }
{
    for reading in readings {
        if differs(first, reading) {
            return true;
        }
    }
    false
}

fn disagrees(one: &Reading, other: &Reading) -> bool
    ensures { result ≡ disagrees one.now other.now }
{
    let one = one.telegram.header().counter;
    let other = other.telegram.header().counter;
    !one.fits_all() && !other.fits_all() && one != other
}

fn disagrees_with_any(readings: &[Reading], reading: &Reading) -> bool
    ensures { result ≡ list_any (disagrees reading.now) readings.now }
{
    for other in readings {
        if disagrees(reading, other) {
            return true;
        }
    }
    false
}

fn is_refused(readings: &[Reading], reading: &Reading) -> bool
    ensures { result ≡ is_refused readings.now reading.now }
{
    reading.telegram.header().counter.fits_none() || disagrees_with_any(readings, reading)
}

fn is_any_refused(readings: &[Reading]) -> bool
    ensures { result ≡ list_any (is_refused readings.now) readings.now }
{
    for reading in readings {
        if is_refused(readings, reading) {
            return true;
        }
    }
    false
}

fn cause(first: &Reading, readings: &[Reading]) -> Option<Cause>
    ensures { result ≡ cause_of first.now readings.now }
{
    if is_mixed(first, readings) {
        Some(Cause::Mixed)
    } else if is_any_refused(readings) {
        Some(Cause::Counter)
    } else if is_each_covered(readings, places(first)) {
        None
    } else {
        Some(Cause::Missing)
    }
}

fn direction(readings: &[Reading]) -> Option<LinkOrientation>
    ensures { result ≡ direction_of readings.now }
{
    let [first, second, ..] = readings else {
        return None;
    };
    if first.telegram.header().position < second.telegram.header().position {
        Some(LinkOrientation::Nominal)
    } else {
        Some(LinkOrientation::Reverse)
    }
}

// The reading of balise 1, whose place is 0, or the first one.
fn place<'a>(first: &'a Reading, readings: &'a [Reading]) -> &'a Reading
    ensures { result.now ≡ reading_at 0 first.now readings.now }
{
    for reading in readings {
        if is_at(reading, 0) {
            return reading;
        }
    }
    first
}

// Adds the telegram of a place.
fn add_telegram(telegrams: &mut Gathered, readings: &[Reading], place: u64)
    requires { length telegrams.old < 8 }
    ensures added { telegrams.new ≡ telegrams.old ++ map (λ t. t.packets.items) (telegrams_at place readings.now) }
    ensures count { length telegrams.new ≤ length telegrams.old + 1 }
{
    for reading in readings {
        if is_at(reading, place) {
            telegrams.push(&reading.telegram);
            return;
        }
    }
}

// Puts the packets of the telegrams, in order of place, in the place of others.
#[tactic(auto, using(crate::proofs::Description::reported_used))]
fn gather(packets: &mut GroupPackets, readings: &[Reading], places: u64)
    requires { places ≤ 8 }
    ensures { packets.new ≡ reported_by (telegrams_below places readings.now) }
{
    packets.telegrams = Gathered::new();
    for place in 0..places {
        add_telegram(&mut packets.telegrams, readings, place);
    }
}

// A message to be filled.
fn blank() -> Message {
    Message {
        group: Header::default().group,
        linked: false,
        direction: None,
        sums: Sums::ZERO,
        missed: false,
        packets: GroupPackets {
            telegrams: Gathered::new(),
        },
    }
}

// Puts a message in the place of another.
fn fill(message: &mut Message, first: &Reading, readings: &[Reading])
    ensures { message.new ≡ message_of first.now readings.now }
{
    let header = first.telegram.header();
    message.group = header.group;
    message.linked = header.linked;
    message.direction = direction(readings);
    message.sums = place(first, readings).sums;
    message.missed = !was_read(readings, 0);
    gather(&mut message.packets, readings, places(first));
}

/// Nothing closes. A place that is empty stays as it is, since `None` is written as wide as a message.
pub fn empty(closed: &mut Option<Closed>)
    ensures { closed.new ≡ None }
{
    if closed.is_some() {
        *closed = None;
    }
}

/// Puts what a group closes to (SUBSET-026, 3.4 and 3.16.2; why it is broken: this project's profile) in a place that
/// the caller has; these are its readings that count, one a place. None where there are none.
pub fn close(readings: &[Reading], closed: &mut Option<Closed>)
    ensures { closed.new ≡ close_of readings.now }
{
    let Some(first) = readings.first() else {
        empty(closed);
        return;
    };
    match cause(first, readings) {
        None => {
            *closed = Some(Closed::Whole(blank()));
            if let Some(Closed::Whole(message)) = closed {
                fill(message, first, readings);
            }
        }
        Some(cause) => {
            let header = first.telegram.header();
            *closed = Some(Closed::Broken(Broken {
                group: header.group,
                linked: header.linked,
                cause,
            }));
        }
    }
}
