//! A whole group that was read, and how linking judges it.
ghost use Rattle.std.specs.Prelude.{◌≡◌, ◌≤◌, ◌^◌};
ghost use Rattle.std.specs.Int.RustNames.{unsigned_abs};
ghost use Rattle.linking.specs.Judging.{max_front};

use crate::{Announcement, Effect};
use odometry::EarlierPlace;
use vars::{GroupIdentity, LinkOrientation};

/// A whole balise group, as it was read (SUBSET-026, 3.4).
#[derive(Clone, Copy)]
pub struct GroupRead {
    /// Which group it is.
    pub group: GroupIdentity,
    /// Whether it may be announced (Q_LINK).
    pub linked: bool,
    /// The direction in which it was passed; None where it isn't known.
    pub direction: Option<LinkOrientation>,
    /// Where the front was thought to be when its balise was read, and how far that may be wrong, in centimetres.
    pub place: EarlierPlace,
}

impl GroupRead {
    /// The maximum safe front at its reading. It may lie beyond the limits of a place.
    pub(crate) fn max_front(&self) -> i64
        ensures value { result ≡ max_front self.now }
        ensures near { unsigned_abs result ≤ 2 ^ 43 }
    {
        self.place.estimate.get() + self.place.uncertainty.get()
    }
}

/// What becomes of a group that was read (SUBSET-026, 3.4.4 and 3.16.2; which comes first: this project's profile).
#[derive(Clone, Copy)]
pub enum Verdict {
    /// Its message is used. With Some it is the group of this announcement; with None it isn't linked, or linking isn't
    /// in use.
    Accept(Option<Announcement>),
    /// It is linked and isn't announced while others are. Its message isn't used.
    Ignore,
    /// It was found before the place that this announcement allows, or in the wrong direction. Its message isn't used.
    Reaction(Announcement),
}

/// What becomes of a group that was read, and what linking asks of the train (SUBSET-026, 3.4.4).
#[derive(Clone, Copy)]
pub struct Judgement {
    /// What becomes of the group.
    pub verdict: Verdict,
    /// What linking asks of the train: after Reaction a trip for the wrong direction, else the announced reaction;
    /// after Accept that of the announcements passed over.
    pub effect: Effect,
}
