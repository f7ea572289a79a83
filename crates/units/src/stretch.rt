//! A train's minimum safe rear, minimum safe front and maximum safe front, kept in this order.
ghost use Rattle.std.specs.Prelude.{◌≡◌, ◌↔◌, IsSome, IfSome};
ghost use Rattle.units.specs.Stretches.{Span, IsOrdered};
ghost use Rattle.units.specs.Limits.{IsCm};

use crate::Cm;
use std::marker::Model;

/// The track that a train may cover, in centimetres: from its minimum safe rear over its minimum safe front to its
/// maximum safe front (this project's profile).
#[derive(Clone, Copy)]
pub struct Stretch {
    rear: Cm,
    min_front: Cm,
    max_front: Cm,
}

impl Model for Stretch {
    ghost use Rattle.units.specs.Stretches.{Span, IsOrdered};

    ghost Value = { Span };

    ghost view = { λ s. record { rear = s.rear; min_front = s.min_front; max_front = s.max_front } };

    ghost invariant = { λ s. IsOrdered s.rear s.min_front s.max_front };

    ghost inverse = { λ s. record { rear = s.rear; min_front = s.min_front; max_front = s.max_front } };
}

impl Stretch {
    /// The stretch of these three places; None exactly where they aren't in this order.
    pub fn new(rear: Cm, min_front: Cm, max_front: Cm) -> Option<Stretch>
        ensures found { IsSome result ↔ IsOrdered rear min_front max_front }
        ensures value { IfSome result (λ s. s ≡ record { rear = rear; min_front = min_front; max_front = max_front }) }
    {
        if rear <= min_front && min_front <= max_front {
            Some(Stretch {
                rear,
                min_front,
                max_front,
            })
        } else {
            None
        }
    }

    /// The stretch of these three places, which are proved to be in this order, so nothing is compared.
    pub fn new_unchecked(rear: Cm, min_front: Cm, max_front: Cm) -> Stretch
        requires { IsOrdered rear min_front max_front }
        ensures { result ≡ record { rear = rear; min_front = min_front; max_front = max_front } }
    {
        Stretch {
            rear,
            min_front,
            max_front,
        }
    }

    /// The least place of the train's rear: the minimum safe rear.
    pub fn rear(&self) -> Cm
        ensures value { result ≡ self.now.rear }
        ensures ordered { IsOrdered self.now.rear self.now.min_front self.now.max_front }
    {
        self.rear
    }

    /// The least place of the train's front: the minimum safe front.
    pub fn min_front(&self) -> Cm
        ensures value { result ≡ self.now.min_front }
        ensures ordered { IsOrdered self.now.rear self.now.min_front self.now.max_front }
    {
        self.min_front
    }

    /// The greatest place of the train's front: the maximum safe front.
    pub fn max_front(&self) -> Cm
        ensures value { result ≡ self.now.max_front }
        ensures ordered { IsOrdered self.now.rear self.now.min_front self.now.max_front }
    {
        self.max_front
    }
}
