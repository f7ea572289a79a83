//! Which national values are in force, as packets announce them and groups of other countries are met.
ghost use Rattle.std.specs.Prelude.{◌≡◌, ◌≤◌, false, is_some, List, [], ◌∷◌, length, IfSome};
ghost use Rattle.national.specs.Values.{ValuesFor, is_any, is_foreign};
ghost use Rattle.national.specs.InForce.{NationalEntry, fact_of, is_reached, known, announced_start, in_force, nothing_kept, has_come};
ghost use Rattle.national.specs.InForce.NationalEntry.{Announced, Entered, Reached};

use crate::announcement::Announcement;
use crate::{CountryValues, MOST_COUNTRIES, Values};
use packets::NationalValues;
use std::marker::Model;
use units::{Cm, GroupPlace};
use vars::Country;

/// The national values in force, and those that are announced (SUBSET-026, 3.18.2; when they come into force: this
/// project's profile). Its calls take no memory.
#[derive(Drop)]
pub struct National {
    in_force: CountryValues,
    announced: Option<Announcement>,
}

impl Model for National {
    ghost use Rattle.national.specs.InForce.{KnownValues};

    ghost Value = { KnownValues };

    ghost view = { λ n. record { in_force = n.in_force; announced = n.announced } };
}

impl National {
    /// The defaults are in force, for no country, and nothing is announced.
    pub fn new() -> Self
        ensures { result ≡ known nothing_kept [] }
    {
        National::kept(CountryValues::for_no_country())
    }

    /// What a power-up kept is in force, and nothing is announced.
    pub fn kept(in_force: CountryValues) -> Self
        ensures { result ≡ known in_force [] }
    {
        National {
            in_force,
            announced: None,
        }
    }

    /// Takes packet 3 of a group of a country, in place of the one that is announced. Its start counts from the place
    /// of the group, in centimetres.
    pub fn announce(&mut self, packet: &NationalValues, group_country: Country, place: GroupPlace)
        ensures { (kept : ValuesFor) → (entries : List NationalEntry) → self.old ≡ known kept entries
            → self.new ≡ known kept (Announced (fact_of packet.now group_country place) ∷ entries) }
    {
        self.announced = Some(Announcement::of(packet, group_country, place));
    }

    /// Takes note of an accepted group of a country, before its packets are taken. Where the values in force are for
    /// other countries alone, the defaults come into force for this one.
    pub fn enter(&mut self, country: Country)
        ensures stands { (kept : ValuesFor) → (entries : List NationalEntry) → self.old ≡ known kept entries
            → self.new ≡ known kept (Entered country ∷ entries) }
        ensures at_home { is_foreign country self.new.in_force.countries ≡ false }
    {
        if self.in_force.is_foreign(country) {
            self.in_force = CountryValues::defaults_for(country);
        }
    }

    /// The look, once an event: what is announced comes into force where the maximum safe front, in centimetres, has
    /// reached its start.
    pub fn reach(&mut self, max_front: Cm)
        ensures stands { (kept : ValuesFor) → (entries : List NationalEntry) → self.old ≡ known kept entries
            → self.new ≡ known kept (Reached max_front ∷ entries) }
        ensures ahead { IfSome self.new.announced (λ a. is_reached a.start max_front ≡ false) }
    {
        let reached = match &self.announced {
            None => false,
            Some(announced) => announced.is_reached(max_front),
        };
        if reached {
            if let Some(announced) = self.announced.take() {
                self.in_force = announced.values;
            }
        }
    }

    /// Forgets what is announced, as a power-up does (4.10).
    pub fn forget_announced(&mut self)
        ensures { (kept : ValuesFor) → (entries : List NationalEntry) → self.old ≡ known kept entries
            → self.new ≡ known (in_force kept entries) [] }
    {
        self.announced = None;
    }

    /// What is in force, with its countries: what is to be kept over a power-up.
    pub fn in_force(&self) -> &CountryValues
        ensures { result.now ≡ self.now.in_force }
    {
        &self.in_force
    }

    /// The values in force, in the units of `Values`.
    pub fn values(&self) -> &Values
        ensures { result.now ≡ self.now.in_force.values }
    {
        self.in_force.values()
    }

    /// The countries that the values in force are for, repeated where they came so. Where a life began with the
    /// defaults for no country, there are none exactly while no packet 3 came into force.
    pub fn countries(&self) -> &[Country]
        ensures value { result.now ≡ self.now.in_force.countries }
        ensures few { length result.now ≤ MOST_COUNTRIES }
        ensures any { (entries : List NationalEntry) → self.now ≡ known nothing_kept entries
            → is_any result.now ≡ has_come entries }
    {
        self.in_force.countries()
    }

    /// Whether values are announced that aren't in force yet.
    pub fn is_waiting(&self) -> bool
        ensures { result ≡ is_some self.now.announced }
    {
        self.announced.is_some()
    }

    /// Where the announced values come into force, in centimetres; None where none are announced, or they do wherever
    /// the train is.
    pub fn announced_start(&self) -> Option<Cm>
        ensures { result ≡ announced_start self.now }
    {
        match &self.announced {
            None => None,
            Some(announced) => announced.start,
        }
    }

    /// An equal value.
    pub fn copy(&self) -> Self
        ensures { result ≡ self.now }
    {
        let announced = match &self.announced {
            None => None,
            Some(announced) => Some(announced.copy()),
        };
        National {
            in_force: self.in_force.copy(),
            announced,
        }
    }
}
