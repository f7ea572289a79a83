//! At most 8 readings of one group, the first of each place, and what they close to.
ghost use Rattle.std.specs.Prelude.{◌≡◌, ◌≤◌, List, [], false};
ghost use Rattle.balise_groups.specs.Closing.{is_read, is_whole, close_of};
ghost use Rattle.balise_groups.specs.Groups.{with_reading};
ghost use Rattle.balise_groups.specs.PacketCounts.{most_packets, packets_in};

use crate::closing::{are_all_read, close, was_read};
use crate::message::Closed;
use crate::reading::Reading;
use arrayvec::ArrayVec;
use std::marker::Model;
use vars::Variable;

/// The readings of a group that count: the first of each place, in the order in which they came (this project's
/// profile). At most 8.
#[derive(Drop)]
pub struct Readings {
    items: ArrayVec<Reading, 8>,
}

impl Model for Readings {
    ghost use Rattle.std.specs.Prelude.{List};
    ghost use Rattle.balise_groups.specs.declared.reading.Reading.{Reading};
    ghost use Rattle.balise_groups.specs.Places.{HaveOwnPlaces};

    ghost Value = { List Reading };

    ghost view = { λ r. r.items.items };

    ghost invariant = { λ r. HaveOwnPlaces r.items.items };
}

impl Readings {
    /// No readings.
    pub fn new() -> Self
        ensures { result ≡ [] }
    {
        Readings {
            items: ArrayVec::new(),
        }
    }

    /// Takes all of them out.
    pub fn clear(&mut self)
        ensures { self.new ≡ [] }
    {
        self.items.clear();
    }

    /// Adds a reading of the group; one of a place that is there already isn't added.
    pub fn add(&mut self, reading: Reading)
        ensures { self.new ≡ with_reading self.old reading }
    {
        let place = reading.telegram.header().position.number();
        if !was_read(self.items.as_slice(), place) {
            self.items.push(reading);
        }
    }

    /// Whether a reading of this place in the group, N_PIG, is among them.
    pub fn has_place(&self, place: u64) -> bool
        ensures { result ≡ is_read self.now place }
    {
        was_read(self.items.as_slice(), place)
    }

    /// Whether each place up to the first reading's N_TOTAL is read.
    pub fn are_whole(&self) -> bool
        ensures { result ≡ is_whole self.now }
    {
        are_all_read(self.items.as_slice())
    }

    /// How many packets their telegrams have together.
    pub fn packets(&self) -> usize
        ensures number { result ≡ packets_in self.now }
        ensures few { result ≤ most_packets }
    {
        let mut packets = 0;
        for reading in self.items.as_slice() {
            packets += reading.telegram.count() as usize;
        }
        packets
    }

    /// Puts what they close to in a place that the caller has; None where there are none.
    pub fn close(&self, closed: &mut Option<Closed>)
        ensures { closed.new ≡ close_of self.now }
    {
        close(self.items.as_slice(), closed);
    }

    /// An equal value.
    pub fn copy(&self) -> Self
        ensures { result ≡ self.now }
    {
        let mut items = ArrayVec::new();
        for reading in self.items.as_slice() {
            items.push(reading.copy());
        }
        Readings { items }
    }
}
