//! The place of the front beyond a balise group, within 2^41 cm either way.
ghost use Rattle.std.specs.Prelude.{◌≡◌, ◌↔◌, IsSome, IfSome};
ghost use Rattle.events.specs.Limits.{IsOffset};

use std::marker::Model;
use units::{Cm, FARTHEST};
use vars::GroupIdentity;

/// Where the train is, by a balise group: how far beyond it the estimated front lies, from -2^41 to 2^41 cm (this
/// project's profile).
#[derive(Clone, Copy)]
pub struct Position {
    group: GroupIdentity,
    distance: Cm,
}

impl Model for Position {
    ghost use Rattle.events.specs.Kept.{PositionFrom};
    ghost use Rattle.events.specs.Limits.{IsOffset};

    ghost Value = { PositionFrom };

    ghost view = { λ p. record { group = p.group; distance = p.distance } };

    ghost invariant = { λ p. IsOffset p.distance };

    ghost inverse = { λ p. record { group = p.group; distance = p.distance } };
}

/// The farthest distance beyond a group, in centimetres.
pub const FARTHEST_OFFSET: u64 = 2 * FARTHEST;

impl Position {
    /// So many centimetres beyond a group; None exactly outside the limits.
    pub fn new(group: GroupIdentity, distance: Cm) -> Option<Position>
        ensures found { IsSome result ↔ IsOffset distance }
        ensures value { IfSome result (λ p. p ≡ record { group = group; distance = distance }) }
    {
        if distance.get().unsigned_abs() <= FARTHEST_OFFSET {
            Some(Position { group, distance })
        } else {
            None
        }
    }

    /// The group.
    pub fn group(&self) -> GroupIdentity
        ensures { result ≡ self.now.group }
    {
        self.group
    }

    /// How far beyond the group the estimated front lies, in centimetres; negative where it lies before it.
    pub fn distance(&self) -> Cm
        ensures value { result ≡ self.now.distance }
        ensures limits { IsOffset result }
    {
        self.distance
    }
}
