//! The stored authority: what the front does to its timers, and its end at a moment.
ghost use Rattle.std.specs.Prelude.{◌≡◌, ◌⊎◌, [], None, filter, not, if◌then◌else◌, option_map, IsTrue};
ghost use Rattle.authority.specs.Steps.{stops_at, passed_timer, passed_overlap, passed_stored, first_over, is_over_in, taken_back_in, point_in, reported_in, end_in, speed_in};
ghost use Rattle.authority.specs.Timers.{never};
ghost use Rattle.authority.specs.Untimed.{HasNoTime};

use crate::answers::{End, Release};
use crate::timers::{PlaceTimer, TimedSection, is_over};
use arrayvec::ArrayVec;
use units::{Cm, Mph, Ms, Stretch};
use vars::{Timer, Variable};

/// How many sections an authority has at most: the 31 that a packet 12 lists, and the end section.
pub const MOST_SECTIONS: usize = 32;

/// A place beyond the end that is supervised, the danger point or the end of the overlap, and its release speed
/// (SUBSET-026, 3.8.4).
#[derive(Clone, Copy)]
pub struct Point {
    /// Where it is, in centimetres of the life.
    pub location: Cm,
    /// The release speed that goes with it.
    pub release: Release,
}

/// The overlap with its timer (SUBSET-026, 3.8.4).
#[derive(Clone, Copy)]
pub struct TimedOverlap {
    /// The end of the overlap, with its release speed.
    pub point: Point,
    /// Its timer, T_OL: the overlap is supervised until it runs out.
    pub timer: PlaceTimer,
}

/// The authority that was accepted last, with what was seen of its timers (SUBSET-026, 3.8.3 and 3.8.4).
#[derive(Drop)]
pub struct Stored {
    /// When it was accepted, in milliseconds of the life.
    pub accepted: Ms,
    /// The sections whose timers aren't stopped, along the track.
    pub timed: ArrayVec<TimedSection, MOST_SECTIONS>,
    /// Where the end section begins, in centimetres.
    pub end_entry: Cm,
    /// The end of the end section, in centimetres.
    pub end: Cm,
    /// V_MAIN, in metres per hour.
    pub main_speed: Mph,
    /// The speed at the end, V_LOA, in metres per hour.
    pub end_speed: Mph,
    /// How long the speed at the end holds from the acceptance on, T_LOA, in seconds; 1,023 has no end.
    pub end_time: Timer,
    /// The timer of the end section, T_ENDTIMER, where it has one.
    pub end_timer: Option<PlaceTimer>,
    /// The danger point, where it has one.
    pub danger_point: Option<Point>,
    /// The overlap, where it has one.
    pub overlap: Option<TimedOverlap>,
}

/// An authority to be filled.
impl Default for Stored {
    fn default() -> Stored {
        Stored {
            accepted: Ms::new(0).unwrap(),
            timed: ArrayVec::new(),
            end_entry: Cm::ZERO,
            end: Cm::ZERO,
            main_speed: Mph::new(0).unwrap(),
            end_speed: Mph::new(0).unwrap(),
            end_time: Timer::of_number(0).unwrap(),
            end_timer: None,
            danger_point: None,
            overlap: None,
        }
    }
}

/// What is seen after an event.
impl Stored {
    /// Takes where the front is at a moment, in milliseconds: starts the timers of the end section and the overlap, and
    /// drops the sections whose timers stop.
    pub fn pass(&mut self, now: Ms, train: &Stretch)
        ensures { self.new ≡ passed_stored now train.now self.old }
    {
        if self.has_no_timer() {
            return;
        }
        let max_front = train.max_front();
        self.end_timer = passed_timer_of(&self.end_timer, now, max_front);
        self.overlap = passed_overlap_of(&self.overlap, now, max_front);
        drop_stopped(&mut self.timed, self.accepted, now, train.min_front());
    }
}

/// Its times that still matter.
impl Stored {
    /// Whether it has none: its end is the same at every moment and wherever the train is.
    pub fn has_no_time(&self) -> bool
        ensures { IsTrue result → HasNoTime self.now }
    {
        self.has_no_timer() && self.keeps_speed_at_end()
    }

    // Whether no section, end section and overlap has a timer that isn't stopped.
    #[inline(always)]
    fn has_no_timer(&self) -> bool
        ensures { IsTrue result → (self.now.timed.items ≡ []) × (self.now.end_timer ≡ None) × (self.now.overlap ≡ None) }
    {
        self.timed.is_empty() && self.end_timer.is_none() && self.overlap.is_none()
    }

    // Whether V_LOA is the same at every moment.
    fn keeps_speed_at_end(&self) -> bool
        ensures { IsTrue result → (self.now.end_speed ≡ 0) ⊎ (self.now.end_time ≡ never) }
    {
        self.end_speed.get() == 0 || self.end_time.expiry().is_none()
    }
}

fn passed_timer_of(timer: &Option<PlaceTimer>, now: Ms, max_front: Cm) -> Option<PlaceTimer>
    ensures { result ≡ option_map (passed_timer now max_front) timer.now }
{
    match timer {
        None => None,
        Some(timer) => Some(timer.passed(now, max_front)),
    }
}

fn passed_overlap_of(overlap: &Option<TimedOverlap>, now: Ms, max_front: Cm) -> Option<TimedOverlap>
    ensures { result ≡ option_map (passed_overlap now max_front) overlap.now }
{
    match overlap {
        None => None,
        Some(overlap) => Some(TimedOverlap {
            point: overlap.point,
            timer: overlap.timer.passed(now, max_front),
        }),
    }
}

// Drops the sections whose timers stop.
fn drop_stopped(
    timed: &mut ArrayVec<TimedSection, MOST_SECTIONS>,
    start: Ms,
    now: Ms,
    min_front: Cm,
)
    ensures { timed.new.items ≡ filter (λ section. not (stops_at start now min_front section)) timed.old.items }
{
    timed.retain(|section| !is_stopped(section, start, now, min_front));
}

// Whether a section's timer that still runs stops where the minimum safe front was seen.
fn is_stopped(section: &TimedSection, start: Ms, now: Ms, min_front: Cm) -> bool
    ensures { result ≡ stops_at start now min_front section.now }
{
    min_front >= section.stop_at && !is_over(section.time, start, now)
}

/// What it answers.
impl Stored {
    /// The end at a moment, in milliseconds.
    #[inline(always)]
    pub fn end_now(&self, now: Ms) -> End
        ensures { result ≡ end_in now self.now }
    {
        match self.taken_back(now) {
            None => self.end_as_reported(now),
            Some(place) => End {
                place,
                speed: Mph::new(0).unwrap(),
                location: place,
                release: Release::none(),
            },
        }
    }

    // Where the end is taken back to.
    fn taken_back(&self, now: Ms) -> Option<Cm>
        ensures { result ≡ taken_back_in now self.now }
    {
        match first_run_out(self.timed.as_slice(), self.accepted, now) {
            Some(entry) => Some(entry),
            None => {
                if is_over_by(&self.end_timer, now) {
                    Some(self.end_entry)
                } else {
                    None
                }
            }
        }
    }

    // The end of the last section, with what is after it.
    fn end_as_reported(&self, now: Ms) -> End
        ensures { result ≡ reported_in now self.now }
    {
        let speed = self.speed_at_end(now);
        let point = self.supervised(now);
        End {
            place: self.end,
            speed,
            location: point.location,
            release: if speed.get() == 0 {
                point.release
            } else {
                Release::none()
            },
        }
    }

    // V_LOA while it is in force.
    fn speed_at_end(&self, now: Ms) -> Mph
        ensures { result ≡ speed_in now self.now }
    {
        if is_over(self.end_time, self.accepted, now) {
            Mph::new(0).unwrap()
        } else {
            self.end_speed
        }
    }

    // The overlap until its timer runs out, else the danger point, else the end.
    fn supervised(&self, now: Ms) -> Point
        ensures { result ≡ point_in now self.now }
    {
        if let Some(overlap) = &self.overlap
            && !overlap.timer.is_over(now)
        {
            return overlap.point;
        }
        match self.danger_point {
            Some(point) => point,
            None => Point {
                location: self.end,
                release: Release::none(),
            },
        }
    }

    /// An equal value.
    pub fn copy(&self) -> Stored
        ensures { result ≡ self.now }
    {
        let mut timed = ArrayVec::new();
        let sections = self.timed.as_slice();
        for section in sections {
            timed.push(*section);
        }
        Stored {
            accepted: self.accepted,
            timed,
            end_entry: self.end_entry,
            end: self.end,
            main_speed: self.main_speed,
            end_speed: self.end_speed,
            end_time: self.end_time,
            end_timer: self.end_timer,
            danger_point: self.danger_point,
            overlap: self.overlap,
        }
    }
}

fn is_over_by(timer: &Option<PlaceTimer>, now: Ms) -> bool
    ensures { result ≡ is_over_in now timer.now }
{
    match timer {
        None => false,
        Some(timer) => timer.is_over(now),
    }
}

// The entry of the first section along the track that has run out.
fn first_run_out(timed: &[TimedSection], start: Ms, now: Ms) -> Option<Cm>
    ensures { result ≡ first_over start now timed.now }
{
    for section in timed {
        if is_over(section.time, start, now) {
            return Some(section.entry);
        }
    }
    None
}
