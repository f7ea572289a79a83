//! The timers of sections, end section and overlap: when they start and when they have run out.
ghost use Rattle.std.specs.Prelude.{◌≡◌};
ghost use Rattle.authority.specs.Timers.{has_run_out, started_has_run_out};
ghost use Rattle.authority.specs.Steps.{passed_timer};

use units::{Cm, Ms};
use vars::{Timer, Variable};

/// Whether a timer that started at a moment has run out by now; both are milliseconds. A timer of 1,023 s never runs
/// out.
pub fn is_over(time: Timer, start: Ms, now: Ms) -> bool
    ensures { result ≡ has_run_out time start now }
{
    match time.expiry() {
        None => false,
        Some(span) => start.get() + span.get() <= now.get(),
    }
}

/// The timer of a section, at its place on the track (SUBSET-026, 3.8.3). It runs from the acceptance of the authority
/// on.
#[derive(Clone, Copy)]
pub struct TimedSection {
    /// Where the section begins, in centimetres of the life.
    pub entry: Cm,
    /// Where the minimum safe front stops the timer, in centimetres of the life.
    pub stop_at: Cm,
    /// How long it runs, in seconds (T_SECTIONTIMER); 1,023 has no end.
    pub time: Timer,
}

/// Fills unused elements.
impl Default for TimedSection {
    fn default() -> TimedSection {
        TimedSection {
            entry: Cm::ZERO,
            stop_at: Cm::ZERO,
            time: Timer::of_number(0).unwrap(),
        }
    }
}

/// A timer that the maximum safe front starts: that of the end section or of the overlap (SUBSET-026, 3.8.3 and 3.8.4).
#[derive(Clone, Copy)]
pub struct PlaceTimer {
    /// Where the maximum safe front starts it, in centimetres of the life.
    pub from: Cm,
    /// How long it runs, in seconds (T_ENDTIMER, T_OL); 1,023 has no end.
    pub time: Timer,
    /// When it started, in milliseconds of the life; None before.
    pub started: Option<Ms>,
}

impl PlaceTimer {
    /// The timer once the maximum safe front was seen at a place, in centimetres, at a moment, in milliseconds.
    pub fn passed(&self, now: Ms, max_front: Cm) -> PlaceTimer
        ensures { result ≡ passed_timer now max_front self.now }
    {
        if self.started.is_none() && max_front >= self.from {
            PlaceTimer {
                from: self.from,
                time: self.time,
                started: Some(now),
            }
        } else {
            *self
        }
    }

    /// Whether it has started and run out by this moment, in milliseconds.
    pub fn is_over(&self, now: Ms) -> bool
        ensures { result ≡ started_has_run_out self.now.time self.now.started now }
    {
        match self.started {
            None => false,
            Some(start) => is_over(self.time, start, now),
        }
    }
}
