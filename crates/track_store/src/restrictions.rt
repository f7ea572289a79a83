//! A store of temporary speed restrictions: taken, revoked, forgotten, and the least speed of them.
ghost use Rattle.std.specs.Prelude.{◌≡◌, ◌≤◌, ◌+◌, List, [], ◌∷◌, filter, not, min, max, if◌then◌else◌, IsOk, OnOk, OnErr, IfOk, vec_len, vec_capacity};
ghost use Rattle.track_store.specs.Covering.{is_ended_by, reaches_past};
ghost use Rattle.track_store.specs.Meeting.{meets};
ghost use Rattle.track_store.specs.Restrictions.{RestrictionEntry, in_force, least_speed, size_of};
ghost use Rattle.track_store.specs.Restrictions.RestrictionEntry.{Restricted, Revoked, Forgotten};

mod walk;

use crate::reserving::reserve;
use crate::restriction::Restriction;
use std::alloc::Global;
use std::marker::Model;
use units::{Cm, Mph, NoMemory, Stretch};
use vars::RestrictionNumber;

/// The temporary speed restrictions in force (SUBSET-026, 3.11.5).
#[derive(Drop)]
pub struct Restrictions {
    // No track before this place counts.
    mark: Cm,
    // The newest last. Each has track at or ahead of the mark.
    items: Vec<Restriction>,
    // For how many restrictions more the list has space.
    space: usize,
}

impl Model for Restrictions {
    ghost use Rattle.std.specs.Prelude.{◌+◌, ◌≤◌, vec_len, vec_capacity};
    ghost use Rattle.track_store.specs.Restrictions.{Held};

    ghost Value = { Held };

    ghost view = { λ r. record { track = record { mark = r.mark; restrictions = r.items.items }; space = r.space } };

    ghost invariant = { λ r. vec_len r.items + r.space ≤ vec_capacity r.items };
}

impl Restrictions {
    /// No restriction, and nothing forgotten. Takes no memory.
    pub fn new(alloc: Global) -> Self
        ensures { result ≡ record { track = in_force []; space = 0 } }
    {
        Restrictions {
            mark: Cm::MIN,
            items: Vec::new(alloc),
            space: 0,
        }
    }

    /// For how many restrictions more there is space.
    pub fn space(&self) -> usize
        ensures { result ≡ self.now.space }
    {
        self.space
    }

    /// Makes space for so many restrictions more, unless there is space for more than those. NoMemory where memory is
    /// refused, and then nothing changes.
    pub fn make_space(&mut self, restrictions: usize) -> Result<(), NoMemory>
        ensures ok { OnOk result (self.new ≡ record self.old { space = max restrictions self.old.space }) }
        ensures err { OnErr result (self.new ≡ self.old) }
    {
        let space = restrictions.max(self.space);
        reserve(&mut self.items, space)?;
        self.space = space;
        Ok(())
    }

    /// Gives back space: what is left is for so many restrictions. The caller owes no more than there is space for.
    pub fn limit_space(&mut self, restrictions: usize)
        requires { restrictions ≤ self.old.space }
        ensures { self.new ≡ record self.old { space = restrictions } }
    {
        self.space = restrictions;
    }

    /// Takes a restriction, in place of the one of its number (but for 255). NoMemory where memory is refused, and then
    /// nothing changes. The list holds the allocator that it takes memory of. This is for a caller who makes no space
    /// first.
    pub fn add(&mut self, _alloc: Global, restriction: Restriction) -> Result<(), NoMemory>
        ensures ok { OnOk result ((entries : List RestrictionEntry) → self.old.track ≡ in_force entries
            → self.new.track ≡ in_force (Restricted restriction ∷ entries)) }
        ensures err { OnErr result (self.new ≡ self.old) }
    {
        self.make_space(1)?;
        self.add_reserved(restriction);
        Ok(())
    }

    /// What `add` does, in the space that was made: it takes no memory. The caller owes space for one.
    pub fn add_reserved(&mut self, restriction: Restriction)
        requires { 1 ≤ self.old.space }
        ensures track { (entries : List RestrictionEntry) → self.old.track ≡ in_force entries
            → self.new.track ≡ in_force (Restricted restriction ∷ entries) }
        ensures space { self.new.space + 1 ≡ self.old.space }
    {
        self.space -= 1;
        drop_number(&mut self.items, restriction.number);
        if restriction.reaches_past(self.mark) {
            self.items.push_reserved(restriction);
        }
    }

    /// Revokes the restriction of a number (but for 255).
    pub fn revoke(&mut self, number: RestrictionNumber)
        ensures track { (entries : List RestrictionEntry) → self.old.track ≡ in_force entries
            → self.new.track ≡ in_force (Revoked number ∷ entries) }
        ensures space { self.new.space ≡ self.old.space }
    {
        drop_number(&mut self.items, number);
    }

    /// Forgets all track before a place, in centimetres. What was forgotten before stays so.
    pub fn drop_behind(&mut self, mark: Cm)
        ensures track { (entries : List RestrictionEntry) → self.old.track ≡ in_force entries
            → self.new.track ≡ in_force (Forgotten mark ∷ entries) }
        ensures space { self.new.space ≡ self.old.space }
        ensures size { size_of self.new ≤ size_of self.old }
    {
        if self.mark < mark {
            self.mark = mark;
            drop_forgotten(&mut self.items, mark);
        }
    }

    /// The least of a speed and of those that limit a train that may cover this stretch, in metres per hour.
    pub fn least(&self, train: &Stretch, otherwise: Mph) -> Mph
        ensures { result ≡ least_speed self.now.track train.now otherwise }
    {
        let first = self.mark.max(train.rear());
        let mut limit = otherwise;
        for restriction in &self.items {
            limit = limited_by(restriction, first, train, limit);
        }
        limit
    }

    /// An equal value, with as much space; NoMemory where memory is refused. One of size 0 takes none.
    pub fn copy(&self, alloc: Global) -> Result<Self, NoMemory>
        ensures value { IfOk result (λ copy. copy ≡ self.now) }
        ensures quiet { size_of self.now ≡ 0 → IsOk result }
    {
        let mut items = Vec::with_capacity(alloc, self.items.len() + self.space)?;
        items.extend_from_slice(&self.items)?;
        Ok(Restrictions {
            mark: self.mark,
            items,
            space: self.space,
        })
    }
}

// Drops the restrictions of a number, but for 255.
fn drop_number(items: &mut Vec<Restriction>, number: RestrictionNumber)
    ensures kept { items.new.items
        ≡ filter (λ restriction. not (is_ended_by number restriction)) items.old.items }
    ensures len { vec_len items.new ≤ vec_len items.old }
    ensures capacity { vec_capacity items.new ≡ vec_capacity items.old }
{
    items.retain(|restriction| !restriction.is_ended_by(number));
}

// Drops the restrictions that lie wholly before a forgetting mark.
fn drop_forgotten(items: &mut Vec<Restriction>, mark: Cm)
    ensures kept { items.new.items ≡ filter (reaches_past mark) items.old.items }
    ensures len { vec_len items.new ≤ vec_len items.old }
    ensures capacity { vec_capacity items.new ≡ vec_capacity items.old }
{
    items.retain(|restriction| restriction.reaches_past(mark));
}

// The limit once a restriction is counted in, where no track before a first centimetre counts.
fn limited_by(restriction: &Restriction, first: Cm, train: &Stretch, limit: Mph) -> Mph
    ensures { result ≡ (if meets first train.now restriction.now
        then min restriction.now.speed limit else limit) }
{
    if restriction.meets(first, train) && restriction.speed < limit {
        restriction.speed
    } else {
        limit
    }
}
