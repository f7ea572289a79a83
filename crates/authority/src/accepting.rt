//! What packet 12 gives to store, with its places and its timers on the track.
ghost use Rattle.std.specs.Prelude.{◌≡◌, ◌+◌, ◌<◌, ◌≤◌, ◌++◌, [], option_map};
ghost use Rattle.units.specs.Limits.{HasReach};
ghost use Rattle.arrayvec.specs.ArrayVec.{array_vec_len};
ghost use Rattle.authority.specs.Entries.{fact_of};
ghost use Rattle.authority.specs.Track.{timed_one};
ghost use Rattle.authority.specs.Authority.{danger_point_of};
ghost use Rattle.authority.specs.Known.{timer_of, end_timer_of, overlap_of, stored_of};

use crate::answers::Release;
use crate::stored::{MOST_SECTIONS, Point, Stored, TimedOverlap};
use crate::timers::{PlaceTimer, TimedSection};
use arrayvec::ArrayVec;
use packets::{DangerPoint, EndTimer, MovementAuthority, Overlap, Section};
use units::{Cm, GroupPlace, Ms};
use vars::{Distance, Scale, Timer};

/// Stores an authority that is accepted at a moment, in milliseconds, in place of another. Its sections count from the
/// place of its group, in centimetres.
pub fn store(stored: &mut Stored, packet: &MovementAuthority, place: GroupPlace, moment: Ms)
    ensures { stored.new ≡ stored_of (fact_of packet.now place moment) [] }
{
    let scale = packet.scale;
    stored.timed.clear();
    let mut at = place.to_cm();
    let sections = packet.sections.as_slice();
    for section in sections {
        push_timed(&mut stored.timed, scale, at, section);
        at = at.ahead(section.length.in_scale(scale));
    }
    push_timed(&mut stored.timed, scale, at, &packet.end_section);
    let end = at.ahead(packet.end_section.length.in_scale(scale));
    stored.accepted = moment;
    stored.end_entry = at;
    stored.end = end;
    stored.main_speed = packet.speed.speed();
    stored.end_speed = packet.end_speed.speed();
    stored.end_time = packet.end_time;
    stored.end_timer = end_timer_by(end, scale, &packet.end_timer);
    stored.danger_point = point_by(end, scale, &packet.danger_point);
    stored.overlap = overlap_by(end, scale, &packet.overlap);
}

// Appends a section that has a timer.
fn push_timed(
    timed: &mut ArrayVec<TimedSection, MOST_SECTIONS>,
    scale: Scale,
    entry: Cm,
    section: &Section,
)
    requires space { array_vec_len timed.old < MOST_SECTIONS }
    requires near { HasReach entry }
    ensures items { timed.new.items ≡ timed.old.items ++ timed_one scale entry section.now }
    ensures len { array_vec_len timed.new ≤ array_vec_len timed.old + 1 }
{
    match &section.timer {
        None => {}
        Some(timer) => timed.push(TimedSection {
            entry,
            stop_at: entry.ahead(timer.stop.in_scale(scale)),
            time: timer.time,
        }),
    }
}

// A timer that starts so far before the end.
fn timer_by(end: Cm, scale: Scale, start: Distance, time: Timer) -> PlaceTimer
    requires { HasReach end }
    ensures { result ≡ timer_of end scale start time [] }
{
    PlaceTimer {
        from: end.back(start.in_scale(scale)),
        time,
        started: None,
    }
}

fn end_timer_by(end: Cm, scale: Scale, timer: &Option<EndTimer>) -> Option<PlaceTimer>
    requires { HasReach end }
    ensures { result ≡ option_map (end_timer_of end scale []) timer.now }
{
    match timer {
        None => None,
        Some(timer) => Some(timer_by(end, scale, timer.start, timer.time)),
    }
}

fn point_by(end: Cm, scale: Scale, point: &Option<DangerPoint>) -> Option<Point>
    requires { HasReach end }
    ensures { result ≡ option_map (danger_point_of end scale) point.now }
{
    match point {
        None => None,
        Some(point) => Some(Point {
            location: end.ahead(point.distance.in_scale(scale)),
            release: Release::of(point.release),
        }),
    }
}

fn overlap_by(end: Cm, scale: Scale, overlap: &Option<Overlap>) -> Option<TimedOverlap>
    requires { HasReach end }
    ensures { result ≡ option_map (overlap_of end scale []) overlap.now }
{
    match overlap {
        None => None,
        Some(overlap) => Some(TimedOverlap {
            point: Point {
                location: end.ahead(overlap.distance.in_scale(scale)),
                release: Release::of(overlap.release),
            },
            timer: timer_by(end, scale, overlap.start, overlap.time),
        }),
    }
}
