//! Where a temporary speed restriction lies, which trains it limits, and what ends it.
ghost use Rattle.std.specs.Prelude.{◌≡◌, ◌≤◌, ◌^◌};
ghost use Rattle.std.specs.Int.RustNames.{unsigned_abs};

use units::{Cm, Mph, Reach, Stretch};
use vars::{RestrictionNumber, TrainLengthDelay};

/// A temporary speed restriction (packet 65; SUBSET-026, 3.11.5) at its place on the track.
#[derive(Clone, Copy)]
pub struct Restriction {
    /// Its number, NID_TSR.
    pub number: RestrictionNumber,
    /// Its first centimetre.
    pub start: Cm,
    /// How far it reaches from there, in centimetres; it covers nothing where this is 0.
    pub length: Reach,
    /// Whether the train's length delays its end, Q_FRONT.
    pub delay: TrainLengthDelay,
    /// Its speed, V_TSR, in metres per hour.
    pub speed: Mph,
}

impl Restriction {
    ghost use Rattle.track_store.specs.Covering.{end_of, is_ended_by, reaches_past};
    ghost use Rattle.track_store.specs.Meeting.{meets};

    // The first centimetre after it.
    fn end(&self) -> i64
        ensures value { result ≡ end_of self.now }
        ensures near { unsigned_abs result ≤ 2 ^ 43 }
    {
        self.start.get() + i64::from(self.length.get())
    }

    /// Whether a later restriction or revocation of a number ends it; for 255 none does.
    pub fn is_ended_by(&self, number: RestrictionNumber) -> bool
        ensures { result ≡ is_ended_by number self.now }
    {
        self.number == number && !number.is_irrevocable()
    }

    /// Whether some of it lies at or ahead of a forgetting mark.
    pub fn reaches_past(&self, mark: Cm) -> bool
        ensures { result ≡ reaches_past mark self.now }
    {
        mark.get() < self.end()
    }

    /// Whether it limits a train somewhere, where no track before a first centimetre counts.
    pub fn meets(&self, first: Cm, train: &Stretch) -> bool
        ensures { result ≡ meets first train.now self.now }
    {
        let from = match self.delay {
            TrainLengthDelay::Applied => first.get(),
            TrainLengthDelay::NotApplied => first.get().max(train.min_front().get()),
        };
        let first_met = from.max(self.start.get());
        let last_met = train.max_front().get().min(self.end() - 1);
        first_met <= last_met
    }
}
