//! Memory for a fact is taken ahead, and filled without asking for more.
ghost use Rattle.std.specs.Prelude.{◌≡◌, ◌≤◌, length};

use crate::fact::Fact;
use crate::{MOST_STEPS, Step};
use std::alloc::Global;
use std::marker::Model;
use units::{Cm, NoMemory};

/// Space for the steps of one fact (this project's profile).
#[derive(Drop)]
pub struct Blank<T> {
    steps: Vec<Step<T>>,
}

impl<T> Model for Blank<T> {
    ghost use Rattle.std.specs.Prelude.{◌≡◌, ◌≤◌, ℕ, vec_len, vec_capacity};

    ghost Value = { ℕ };

    ghost view = { λ b. 0 };

    ghost invariant = { λ b. (vec_len b.steps ≡ 0) × (32 ≤ vec_capacity b.steps) };
}

impl<T: Copy> Blank<T> {
    /// Space for the steps of one packet. NoMemory where memory is refused.
    pub fn new(alloc: Global) -> Result<Self, NoMemory> {
        Ok(Blank {
            steps: Vec::with_capacity(alloc, MOST_STEPS)?,
        })
    }

    /// A profile from a first place on, in centimetres, as steps give it. Takes no memory. The caller owes at most
    /// `MOST_STEPS` steps.
    pub fn fill(self, start: Cm, steps: &[Step<T>]) -> Fact<T>
        requires { length steps.now ≤ MOST_STEPS }
        ensures { result ≡ record { start = start; steps = steps.now; mark = start } }
    {
        let mut own = self.steps;
        own.extend_from_slice(steps).unwrap();
        Fact::of(start, own)
    }
}
