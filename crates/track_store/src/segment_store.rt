//! A store that keeps a profile as segments, no two neighbours of one value, and so stays short.
ghost use Rattle.std.specs.Prelude.{◌≡◌, ℤ, Option};
ghost use Rattle.track_store.specs.Segments.{IsKept, count_of};

use crate::reserving::reserve;
use crate::segments::{
    Segment, all_known, drop_below, hold_steps, next_start, piece_at, piece_up_to, value_at,
};
use crate::{MOST_STEPS, Piece, PieceBefore, Profile, ProfileStore, Same, Step};
use std::alloc::Global;
use std::marker::Model;
use units::{Cm, NoMemory};

/// The most segments that a replacement adds: one a step, one before the first of them and one from an end mark on.
const MOST_SEGMENTS: usize = MOST_STEPS + 2;

/// A profile as segments of one value each (SUBSET-026, 3.11). What is replaced or dropped takes no place in it, so
/// that it stays short however long the life.
#[derive(Drop)]
pub struct SegmentStore<T> {
    // Each lasts up to the next one's start. Where nothing is known after a value, a segment without one follows.
    segments: Vec<Segment<T>>,
    // For how many replacements the list has space.
    space: usize,
}

impl<T> Model for SegmentStore<T> {
    ghost use Rattle.std.specs.Prelude.{◌+◌, ◌*◌, ◌≤◌, vec_len, vec_capacity};
    ghost use Rattle.track_store.specs.Segments.{IsKept, Segmented};

    ghost Value = { Segmented T };

    ghost view = { λ s. record { segments = s.segments.items; space = s.space } };

    ghost invariant = { λ s. IsKept s.segments.items × (vec_len s.segments + 34 * s.space ≤ vec_capacity s.segments) };
}

impl<T> SegmentStore<T> {
    /// How many segments there are, a stretch without a value being none. They are in order, meet where a value is
    /// stored on both sides, and no two neighbours have one value.
    pub fn count(&self) -> usize
        ensures number { result ≡ count_of self.now.segments }
        ensures kept { IsKept self.now.segments }
    {
        self.segments
            .iter()
            .filter(|segment| segment.value.is_some())
            .count()
    }
}

impl<T: Copy> Profile<T> for SegmentStore<T> {
    ghost use Rattle.track_store.specs.Segments.{value_kept};

    ghost value = { value_kept };

    fn at(&self, place: Cm) -> Option<T> {
        value_at(&self.segments, place)
    }

    fn next(&self, place: Cm) -> Option<Cm> {
        next_start(&self.segments, place)
    }

    fn piece(&self, place: Cm, near: usize) -> Piece<T> {
        piece_at(&self.segments, place, near)
    }

    fn piece_before(&self, place: Cm, least: Cm, near: usize) -> PieceBefore<T> {
        piece_up_to(&self.segments, place, least, near)
    }
}

impl<T: Copy + Same> ProfileStore<T> for SegmentStore<T> {
    ghost use Rattle.std.specs.Prelude.{refl};
    ghost use Rattle.track_store.specs.Segments.{profile_kept, with_space, size_of};

    ghost profile = { profile_kept };

    ghost space = { λ kept. kept.space };

    ghost with_space = { with_space };

    ghost size = { size_of };

    ghost profile_is = { λ _. refl };

    ghost same_profile = { λ _ _. refl };

    ghost space_is = { λ _ _. refl };

    ghost space_again = { λ _ _ _. refl };

    ghost own_space = { λ _. refl };

    fn empty(alloc: Global) -> Self {
        SegmentStore {
            segments: Vec::new(alloc),
            space: 0,
        }
    }

    fn replace_from(&mut self, start: Cm, steps: &[Step<T>]) -> Result<(), NoMemory> {
        let kept = self.space * MOST_SEGMENTS;
        let Some(segments) = kept.checked_add(steps.len().saturating_add(2)) else {
            return Err(NoMemory);
        };
        self.segments.reserve(segments)?;
        hold_steps(&mut self.segments, start, steps);
        Ok(())
    }

    fn space(&self) -> usize {
        self.space
    }

    fn make_space(&mut self, replacements: usize) -> Result<(), NoMemory> {
        let space = replacements.max(self.space);
        let Some(segments) = space.checked_mul(MOST_SEGMENTS) else {
            return Err(NoMemory);
        };
        reserve(&mut self.segments, segments)?;
        self.space = space;
        Ok(())
    }

    fn limit_space(&mut self, replacements: usize) {
        self.space = replacements;
    }

    fn replace_reserved(&mut self, start: Cm, steps: &[Step<T>]) {
        self.space -= 1;
        hold_steps(&mut self.segments, start, steps);
    }

    fn is_known_throughout(&self, from: Cm, end: Cm) -> bool {
        all_known(&self.segments, from, end)
    }

    fn drop_behind(&mut self, place: Cm) {
        drop_below(&mut self.segments, place);
    }

    fn clear(&mut self) {
        self.segments.clear();
    }

    fn copy(&self, alloc: Global) -> Result<Self, NoMemory> {
        let count = self.segments.len() + self.space * MOST_SEGMENTS;
        let mut segments = Vec::with_capacity(alloc, count)?;
        segments.extend_from_slice(&self.segments)?;
        Ok(SegmentStore {
            segments,
            space: self.space,
        })
    }
}
