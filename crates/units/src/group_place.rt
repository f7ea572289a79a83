//! Places of balise groups, within 3 * 2^40 cm, so that each reach ahead of one is still a place.
ghost use Rattle.std.specs.Prelude.{◌≡◌, ◌↔◌, pos, ◌+ℤ◌, IsSome, IfSome};
ghost use Rattle.units.specs.Limits.{IsGroupPlace};

use crate::{Cm, FARTHEST, Reach};
use std::marker::Model;

/// Where a balise group lies, from which the distances of its packets count, in centimetres: from -3 * 2^40 to 3 * 2^40
/// (this project's profile).
#[derive(Clone, Copy)]
pub struct GroupPlace {
    cm: i64,
}

impl Model for GroupPlace {
    ghost use Rattle.std.specs.Prelude.{ℤ};
    ghost use Rattle.units.specs.Limits.{IsGroupPlace};

    ghost Value = { ℤ };

    ghost view = { λ p. p.cm };

    ghost invariant = { λ p. IsGroupPlace p.cm };

    ghost inverse = { λ z. record { cm = z } };
}

/// The farthest place of a group, in centimetres.
const FARTHEST_GROUP: u64 = 3 * FARTHEST;

impl GroupPlace {
    /// So many centimetres; None exactly outside the limits.
    pub fn new(cm: i64) -> Option<GroupPlace>
        ensures found { IsSome result ↔ IsGroupPlace cm }
        ensures value { IfSome result (λ p. p ≡ cm) }
    {
        if cm.unsigned_abs() <= FARTHEST_GROUP {
            Some(GroupPlace { cm })
        } else {
            None
        }
    }

    /// So many centimetres, which are proved to lie within the limits, so nothing is compared.
    pub fn new_unchecked(cm: i64) -> GroupPlace
        requires { IsGroupPlace cm }
        ensures { result ≡ cm }
    {
        GroupPlace { cm }
    }

    /// The number of centimetres.
    pub fn get(self) -> i64
        ensures value { result ≡ self }
        ensures limits { IsGroupPlace result }
    {
        self.cm
    }

    /// The same place among all places.
    pub fn to_cm(self) -> Cm
        ensures value { result ≡ self }
        ensures limits { IsGroupPlace result }
    {
        Cm::new_unchecked(self.cm)
    }

    /// The place so far ahead of it.
    pub fn ahead(self, by: Reach) -> Cm
        ensures { result ≡ self +ℤ pos by }
    {
        self.to_cm().ahead(by)
    }
}
