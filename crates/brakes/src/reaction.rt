//! The delay of the brakes, and the way that a train runs in it.
ghost use Rattle.std.specs.Prelude.{◌≡◌, ◌≤◌, ◌↔◌, IsSome, IfSome};
ghost use Rattle.brakes.specs.Limits.{IsReaction};
ghost use Rattle.brakes.specs.Brakes.{reaction_way};

use std::marker::Model;
use units::Mph;

/// The time from an order to brake until the brakes act (this project's profile), in milliseconds: from 0 to 10,000.
#[derive(Clone, Copy, PartialEq, Eq)]
pub struct Reaction {
    ms: u16,
}

impl Model for Reaction {
    ghost use Rattle.std.specs.Prelude.{ℕ};
    ghost use Rattle.brakes.specs.Limits.{IsReaction};

    ghost Value = { ℕ };

    ghost view = { λ r. r.ms };

    ghost invariant = { λ r. IsReaction r.ms };

    ghost inverse = { λ n. record { ms = n } };
}

impl Reaction {
    /// So many milliseconds; None exactly outside the limits.
    pub fn new(ms: u16) -> Option<Reaction>
        ensures found { IsSome result ↔ IsReaction ms }
        ensures value { IfSome result (λ r. r ≡ ms) }
    {
        if ms <= 10_000 {
            Some(Reaction { ms })
        } else {
            None
        }
    }

    /// The number of milliseconds.
    pub fn get(self) -> u16
        ensures value { result ≡ self }
        ensures limits { IsReaction result }
    {
        self.ms
    }
}

/// The way that a train runs before its brakes act, in centimetres.
pub fn reaction_way(reaction: Reaction, speed: Mph) -> u32
    ensures value { result ≡ reaction_way reaction speed }
    ensures small { result ≤ 166_667 }
{
    (u64::from(speed.get()) * u64::from(reaction.get())).div_ceil(36_000) as u32
}
