//! A store that keeps each replacement of a profile, the newest first, and looks among them for the value.
ghost use Rattle.std.specs.Prelude.{◌≤◌, ℤ, Option, IsOk, OnOk, vec_len};

use crate::blank::Blank;
use crate::fact::Fact;
use crate::knowing::is_known_by_pieces;
use crate::{PieceBefore, Profile, ProfileStore, Step};
use std::alloc::Global;
use std::marker::Model;
use units::{Cm, NoMemory};

/// A profile as the list of all its facts (SUBSET-026, 3.11). It grows with each replacement.
#[derive(Drop)]
pub struct FactStore<T> {
    // The newest first.
    facts: Vec<Fact<T>>,
    // For how many facts more there is space: the list has it, and for each a blank is there.
    space: usize,
    blanks: Vec<Blank<T>>,
}

impl<T> Model for FactStore<T> {
    ghost use Rattle.std.specs.Prelude.{◌+◌, ◌≤◌, vec_len, vec_capacity};
    ghost use Rattle.track_store.specs.Remembered.{Listed};

    ghost Value = { Listed T };

    ghost view = { λ s. record { facts = s.facts.items; space = s.space } };

    ghost invariant = { λ s. (vec_len s.facts + s.space ≤ vec_capacity s.facts) × (s.space ≤ vec_len s.blanks) };
}

impl<T: Copy> Profile<T> for FactStore<T> {
    ghost use Rattle.track_store.specs.Remembered.{value_listed};

    ghost value = { value_listed };

    fn at(&self, place: Cm) -> Option<T> {
        for fact in &self.facts {
            if fact.start() <= place {
                return fact.at(place);
            }
        }
        None
    }

    fn next(&self, place: Cm) -> Option<Cm> {
        let mut nearest = None;
        for fact in &self.facts {
            nearest = fact.nearest_change(place, nearest);
        }
        nearest
    }

    fn piece_before(&self, place: Cm, least: Cm, near: usize) -> PieceBefore<T> {
        let mut from = least;
        for fact in &self.facts {
            from = fact.last_change(place, from);
        }
        PieceBefore {
            value: self.at(from),
            from,
            near,
        }
    }
}

impl<T: Copy> ProfileStore<T> for FactStore<T> {
    ghost use Rattle.std.specs.Prelude.{refl};
    ghost use Rattle.track_store.specs.Remembered.{profile_listed, with_space, size_of};

    ghost profile = { profile_listed };

    ghost space = { λ listed. listed.space };

    ghost with_space = { with_space };

    ghost size = { size_of };

    ghost profile_is = { λ _. refl };

    ghost same_profile = { λ _ _. refl };

    ghost space_is = { λ _ _. refl };

    ghost space_again = { λ _ _ _. refl };

    ghost own_space = { λ _. refl };

    fn empty(alloc: Global) -> Self {
        FactStore {
            facts: Vec::new(alloc),
            space: 0,
            blanks: Vec::new(alloc),
        }
    }

    fn replace_from(&mut self, start: Cm, steps: &[Step<T>]) -> Result<(), NoMemory> {
        let Some(more) = self.space.checked_add(1) else {
            return Err(NoMemory);
        };
        let fact = Fact::new(*self.facts.allocator(), start, steps)?;
        self.facts.reserve(more)?;
        self.facts.insert(0, fact).unwrap();
        Ok(())
    }

    fn space(&self) -> usize {
        self.space
    }

    fn make_space(&mut self, replacements: usize) -> Result<(), NoMemory> {
        let space = replacements.max(self.space);
        self.facts.reserve(space)?;
        add_blanks(&mut self.blanks, *self.facts.allocator(), space)?;
        self.space = space;
        Ok(())
    }

    fn limit_space(&mut self, replacements: usize) {
        self.space = replacements;
    }

    fn replace_reserved(&mut self, start: Cm, steps: &[Step<T>]) {
        self.space -= 1;
        if let Some(blank) = self.blanks.pop() {
            self.facts.insert(0, blank.fill(start, steps)).unwrap();
        }
    }

    fn is_known_throughout(&self, from: Cm, end: Cm) -> bool {
        is_known_by_pieces(self, from, end)
    }

    fn drop_behind(&mut self, place: Cm) {
        for fact in self.facts.iter_mut() {
            fact.forget(place);
        }
    }

    fn clear(&mut self) {
        self.facts.clear();
    }

    fn copy(&self, alloc: Global) -> Result<Self, NoMemory> {
        let mut facts = Vec::with_capacity(alloc, self.facts.len() + self.space)?;
        for fact in &self.facts {
            facts.push(fact.copy(alloc)?)?;
        }
        let mut blanks = Vec::new(alloc);
        add_blanks(&mut blanks, alloc, self.space)?;
        Ok(FactStore {
            facts,
            space: self.space,
            blanks,
        })
    }
}

// Makes blanks until there are so many.
fn add_blanks<T: Copy>(
    blanks: &mut Vec<Blank<T>>,
    alloc: Global,
    count: usize,
) -> Result<(), NoMemory>
    ensures ok { OnOk result (count ≤ vec_len blanks.new) }
    ensures quiet { count ≤ vec_len blanks.old → IsOk result }
    ensures len { vec_len blanks.old ≤ vec_len blanks.new }
{
    while blanks.len() < count {
        blanks.push(Blank::new(alloc)?)?;
    }
    Ok(())
}
