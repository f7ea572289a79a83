//! The one walk over the rows of a layout.
ghost use Rattle.std.specs.Prelude.{◌≡◌, ◌+◌, ◌≤◌, length as count, take};
ghost use Rattle.track_packets.specs.Fields.{comes, deeper as deeper_rows, fault_at as fault_of, is_number as has_number, read_row, read_rows, noted, times_reported};
ghost use Rattle.track_packets.specs.Reading.{Gives};
ghost use Rattle.track_packets.specs.Whole.{initial, finished};

use crate::fault::{FieldFault, FieldPlace};
use crate::packet_bits::PacketBits;
use crate::row::{Role, Row, When};
use crate::variable::Variable;
use bits::BitReader;
use packets::PacketFault;
use std::alloc::Global;
use std::marker::Model;

/// A field of a packet, as it was sent.
#[derive(Clone, Copy)]
pub struct Field {
    /// Its variable.
    pub variable: Variable,
    /// The place of its first bit in the packet, from 0 for the first bit of NID_PACKET.
    pub start: u64,
    /// The number of its bits.
    pub width: u32,
    /// The number that its bits spell.
    pub number: u64,
}

/// Why the fields of a packet aren't reported.
#[derive(Drop)]
pub enum FieldsError {
    /// Memory was refused.
    NoMemory,
    /// The packet isn't within the bytes.
    NotThere,
    /// The kernel refuses the packet for this fault.
    Refused(PacketFault),
    /// The packet isn't as its layout says.
    Fault(FieldFault),
}

/// The fields of a packet, and what is after them.
#[derive(Drop)]
pub struct Fields {
    /// The fields in order, NID_PACKET first.
    pub fields: Vec<Field>,
    /// How many bits of the packet are after the last field, which have no layout here.
    pub rest: u32,
}

/// A packet while it is read.
#[derive(Drop)]
pub(crate) struct Reading<'a> {
    fields: Vec<Field>,
    gate: Option<u64>,
    qualifier: Option<u64>,
    whole: u32,
    left: PacketBits<'a>,
}

impl<'a> Model for Reading<'a> {
    ghost use Rattle.track_packets.specs.Fields.{Reported};

    ghost Value = { Reported };

    ghost view = { λ r. record { fields = r.fields.items; gate = r.gate; qualifier = r.qualifier; whole = r.whole; left = r.left } };
}

/// Whether a number is there, and is this one.
fn is_number(number: u64, kept: Option<u64>) -> bool
    ensures { result ≡ has_number number kept }
{
    match kept {
        Some(kept) => kept == number,
        None => false,
    }
}

/// How often the deeper rows after a row come.
fn times_of(role: Role, number: u64) -> u64
    ensures { result ≡ times_reported role number }
{
    match role {
        Role::Counter => number,
        Role::Plain | Role::Qualifier | Role::Gate => 0,
    }
}

/// The fault of a row whose bits aren't all there.
fn fault_at(row: &Row, start: u32) -> FieldFault
    ensures { result ≡ fault_of row.now start }
{
    let place = FieldPlace {
        variable: row.variable,
        start,
    };
    if row.depth == 0 {
        FieldFault::CutOff(place)
    } else {
        FieldFault::TooMany(place)
    }
}

/// The rows at the front that are in more lists than so many.
fn deeper(rows: &[Row], depth: u8) -> &[Row]
    ensures { result.now ≡ deeper_rows depth rows.now }
{
    for i in 0..rows.len() {
        if rows[i].depth <= depth {
            return &rows[..i];
        }
    }
    rows
}

impl<'a> Reading<'a> {
    /// A packet of so many bits, with which the reader begins, before its first field.
    pub(crate) fn new(alloc: Global, reader: &BitReader<'a>, length: u32) -> Self
        requires { length ≤ count reader.now }
        ensures { result ≡ initial (take length reader.now) }
    {
        Reading {
            fields: Vec::new(alloc),
            gate: None,
            qualifier: None,
            whole: length,
            left: PacketBits::new(reader, length),
        }
    }

    /// The fields, and how many bits are left after them: none where the rows are to take all.
    pub(crate) fn finish(self, all: bool) -> Result<Fields, FieldsError>
        ensures { Gives (λ f. (f.fields.items, f.rest)) result (finished all self.entry) }
    {
        let rest = self.left.len();
        if all && rest > 0 {
            let start = self.whole.saturating_sub(rest);
            return Err(FieldsError::Fault(FieldFault::TooLong(start)));
        }
        Ok(Fields {
            fields: self.fields,
            rest,
        })
    }

    /// Whether a row comes.
    fn comes(&self, when: When) -> bool
        ensures { result ≡ comes when self.now }
    {
        match when {
            When::Always => true,
            When::Qualifier(number) => is_number(number, self.qualifier),
            When::Gate(number) => is_number(number, self.gate),
        }
    }

    /// Keeps a number for the rows after it, where they ask for it.
    fn note(&mut self, role: Role, number: u64)
        ensures { self.new ≡ noted role number self.old }
    {
        match role {
            Role::Qualifier => self.qualifier = Some(number),
            Role::Gate => self.gate = Some(number),
            Role::Plain | Role::Counter => {}
        }
    }

    /// Reads a row, and answers how often the deeper ones after it come.
    fn row(&mut self, row: &Row) -> Result<u64, FieldsError>
        ensures { Gives (λ n. (self.new, n)) result (read_row row.now self.old) }
    {
        if !self.comes(row.when) {
            return Ok(0);
        }
        let width = row.variable.width();
        let start = self.whole.saturating_sub(self.left.len());
        let Some(number) = self.left.take(width) else {
            return Err(FieldsError::Fault(fault_at(row, start)));
        };
        let field = Field {
            variable: row.variable,
            start: u64::from(start),
            width,
            number,
        };
        if self.fields.push(field).is_err() {
            return Err(FieldsError::NoMemory);
        }
        self.note(row.role, number);
        Ok(times_of(row.role, number))
    }

    /// Reads the rows of a depth, each with the deeper ones after it. The caller owes at most three depths.
    pub(crate) fn rows(&mut self, rows: &[Row], levels: u8, depth: u8) -> Result<(), FieldsError>
        requires { levels + depth ≤ 3 }
        ensures { Gives (λ _. self.new) result (read_rows levels depth rows.now self.old) }
    {
        if levels == 0 {
            return Ok(());
        }
        let Some((row, others)) = rows.split_first() else {
            return Ok(());
        };
        if row.depth > depth {
            return self.rows(others, levels, depth);
        }
        let count = ok!(self.row(row));
        let block = deeper(others, depth);
        for _ in 0..count {
            ok!(self.rows(block, levels - 1, depth + 1));
        }
        self.rows(others, levels, depth)
    }
}
