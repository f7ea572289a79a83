//! The static speeds that limit a train, as a profile.
ghost use Rattle.std.specs.Prelude.{◌≡◌, ℤ, Option};
ghost use Rattle.track_store.specs.Profiles.{Lasts};
ghost use Rattle.speed_profile.specs.Limit.{counts_at, limiting_value};

use crate::CategorySpeeds;
use track_store::{Piece, Profile};
use units::{Cm, Mph};
use vars::{TrainCategory, TrainLengthDelay};

/// At each centimetre the static speed for a train of a category whose minimum safe front is at a place (SUBSET-026,
/// 3.11.3).
#[derive(Drop)]
pub struct Limiting<'a, S> {
    /// The static speeds.
    pub speeds: &'a S,
    /// The category of the train.
    pub category: TrainCategory,
    /// The minimum safe front, in centimetres.
    pub min_front: Cm,
}

impl<'a, S: Profile<CategorySpeeds>> Profile<Mph> for Limiting<'a, S> {
    ghost use Rattle.speed_profile.specs.Limit.{limiting_value};

    ghost value = { λ l place. limiting_value l.category l.min_front place (S.value l.speeds.now place) };

    fn at(&self, place: Cm) -> Option<Mph> {
        let value = self.speeds.at(place);
        limiting_value(self.category, self.min_front, place, value)
    }

    fn next(&self, place: Cm) -> Option<Cm> {
        self.next_by(place, self.speeds.next(place))
    }

    fn piece(&self, place: Cm, near: usize) -> Piece<Mph> {
        let here = self.speeds.piece(place, near);
        Piece {
            value: limiting_value(self.category, self.min_front, place, here.value),
            next: self.next_by(place, here.next),
            near: here.near,
        }
    }
}

impl<'a, S: Profile<CategorySpeeds>> Limiting<'a, S> {
    // Up to where a value lasts, where the static speed does up to another place: static speeds begin to count at the
    // minimum safe front.
    fn next_by(&self, place: Cm, next: Option<Cm>) -> Option<Cm>
        ensures { Lasts (S.value self.now.speeds.now) place next
            → Lasts (λ there. limiting_value self.now.category self.now.min_front there (S.value self.now.speeds.now there)) place result }
    {
        if self.min_front <= place {
            return next;
        }
        match next {
            Some(next) if next < self.min_front => Some(next),
            _ => Some(self.min_front),
        }
    }
}

// The speed of a static speed, where it counts at a centimetre.
fn limiting_value(
    category: TrainCategory,
    min_front: Cm,
    place: Cm,
    value: Option<CategorySpeeds>,
) -> Option<Mph>
    ensures { result ≡ limiting_value category min_front place value }
{
    match value {
        Some(speeds) if counts_at(min_front, place, speeds.delay) => {
            Some(speeds.for_category(category))
        }
        _ => None,
    }
}

// Whether a static speed counts at a centimetre.
fn counts_at(min_front: Cm, place: Cm, delay: TrainLengthDelay) -> bool
    ensures { result ≡ counts_at min_front place delay }
{
    match delay {
        TrainLengthDelay::Applied => true,
        TrainLengthDelay::NotApplied => min_front <= place,
    }
}
