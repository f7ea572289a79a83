//! A disk in memory, which keeps a record of its calls (this project's profile).
mod calls;
mod settling;

ghost use Rattle.std.specs.Prelude.{◌≡◌, ℕ, ◌+◌, ◌*◌, ◌%◌, ◌^◌, ◌<◌, ◌≤◌, length, IsTrue, IfOk};
ghost use Rattle.disk.specs.State.{now, contents_of, Holds, HoldsZeros};
ghost use Rattle.disk.specs.Record.{IsWithin, IsPlaced, AllPlaced, trace_of};

use crate::plan::{Fate, Plan};
use crate::record::{Call, Place, Trace, bytes_in, follow, place_sectors, unwritten};
use crate::{DiskFault, SECTOR_BYTES};
use std::alloc::Global;
use std::marker::Model;
use units::NoMemory;

/// Space for the record of a `Memory`: so many calls, and so many bytes handed in.
#[derive(Clone, Copy)]
pub struct Space {
    /// How many calls of `read`, `write` and `sync`.
    pub calls: usize,
    /// How many bytes handed in to `write`.
    pub bytes: usize,
}

/// A disk in memory that can lose power. It keeps a record of its calls, from which its earlier images
/// are read, in space that it takes when it is made. Once made, its calls take no memory, `settle` aside. A read does
/// not go through the record: next to it a list says where the bytes of each sector are.
#[derive(Drop)]
pub struct Memory {
    sectors: u64,
    start: Vec<u8>,
    calls: Vec<Call>,
    written: Vec<u8>,
    // Where a read finds each sector.
    places: Vec<Place>,
    space: Space,
    plan: Plan,
    planned_at: usize,
    faults: u64,
}

impl Model for Memory {
    ghost use Rattle.std.specs.Prelude.{◌≤◌, vec_capacity};
    ghost use Rattle.disk.specs.Memory.{Recording, IsRecording};

    ghost Value = { Recording };

    ghost view = { λ m. record { sectors = m.sectors; start = m.start.items; calls = m.calls.items; written = m.written.items; space = m.space; plan = m.plan; planned_at = m.planned_at; faults = m.faults } };

    ghost use Rattle.disk.specs.Kept.{IsKept};

    ghost invariant = { IsKept };
}

impl Memory {
    ghost use Rattle.disk.specs.Memory.{memory_state, plan_of, calls_since, space_of, bytes_used, has_space_for, fate_now, IsRecording, IsFresh, SameHanded, IsNoted};

    /// A disk of zeros with so many sectors of 512 bytes, with space for so many calls of `read`, `write` and `sync`,
    /// and for so many sectors handed in to `write`. All the space is taken at once. NoMemory where it isn't there. A
    /// call beyond the space answers DiskFault.
    pub fn new(alloc: Global, sectors: u64, calls: u64, written: u64) -> Result<Memory, NoMemory>
        ensures sectors { IfOk result (λ m. (memory_state m).sectors ≡ sectors) }
        ensures zeros { IfOk result (λ m. HoldsZeros sectors (contents_of (memory_state m))) }
        ensures fresh { IfOk result IsFresh }
        ensures space { IfOk result (λ m. space_of m ≡ record { calls = calls; bytes = 512 * written }) }
    {
        let bytes = sectors.checked_mul(SECTOR_BYTES as u64).ok_or(NoMemory)? as usize;
        let space = Space {
            calls: calls as usize,
            bytes: written.checked_mul(SECTOR_BYTES as u64).ok_or(NoMemory)? as usize,
        };
        Ok(Memory {
            sectors,
            start: vec![in alloc; 0; bytes]?,
            calls: Vec::with_capacity(alloc, space.calls)?,
            written: Vec::with_capacity(alloc, space.bytes)?,
            places: unwritten(alloc, sectors as usize)?,
            space,
            plan: Plan::Nothing,
            planned_at: 0,
            faults: 0,
        })
    }

    /// Makes a plan in place of the one before. Its calls are counted from here.
    pub fn plan(&mut self, plan: Plan)
        ensures plan { plan_of self.new ≡ plan }
        ensures since { calls_since self.new ≡ 0 }
        ensures space { space_of self.new ≡ space_of self.old }
        ensures used { bytes_used self.new ≡ bytes_used self.old }
        ensures state { memory_state self.new ≡ memory_state self.old }
        ensures handed { SameHanded self.old self.new }
    {
        self.plan = plan;
        self.planned_at = self.calls.len();
    }

    /// The number of calls that the record holds, which is the clock.
    pub fn clock(&self) -> u64
        ensures { result ≡ (memory_state self.now).clock }
    {
        self.calls.len() as u64
    }

    /// How many calls answered DiskFault, modulo 2^64.
    pub fn faults(&self) -> u64
        ensures { result ≡ (memory_state self.now).faults }
    {
        self.faults
    }

    /// Whether a cut may leave any bytes in this sector.
    pub fn is_open(&self, sector: u64) -> bool
        ensures { result ≡ (now (memory_state self.now)).is_open sector }
    {
        self.trace(sector).is_open
    }

    // What its fields keep, for who reads no field.
    pub(crate) fn kept(&self)
        ensures { IsRecording self.now }
    {
        let _fields = &self.start;
    }

    // Whether the record has space for a call that hands in so many bytes.
    pub(crate) fn has_space(&self, bytes: usize) -> bool
        ensures space { result ≡ has_space_for bytes self.now }
        ensures kept { IsRecording self.now }
    {
        self.calls.len() < self.space.calls && bytes <= self.space.bytes - self.written.len()
    }

    // What becomes of the next call.
    pub(crate) fn fate(&self) -> Fate
        ensures { result ≡ fate_now self.now }
    {
        self.plan.fate((self.calls.len() - self.planned_at) as u64)
    }

    // Notes a call, and the bytes that it hands in. It takes no memory.
    pub(crate) fn note(&mut self, call: Call, bytes: &[u8])
        requires space { IsTrue (has_space_for (length bytes.now) self.old) }
        requires within { IsWithin self.old.sectors (length self.old.written + length bytes.now) call }
        ensures { IsNoted call bytes.now self.old self.new }
    {
        self.written.extend_from_slice(bytes).unwrap();
        self.calls.push(call).unwrap();
        if let Call::Written(span) = call {
            place_sectors(&mut self.places, span);
        }
    }

    // Counts a failure.
    pub(crate) fn fault(&mut self) -> DiskFault
        ensures { self.new ≡ record self.old { faults = (self.old.faults + 1) % 2 ^ 64 } }
    {
        self.faults = self.faults.wrapping_add(1);
        DiskFault
    }

    // What the record says of a sector.
    pub(crate) fn trace(&self, sector: u64) -> Trace
        ensures trace { result ≡ trace_of sector self.now.calls }
        ensures placed { AllPlaced (length self.now.written) result }
    {
        follow(&self.calls, sector, self.sectors, self.written.len())
    }

    // What a read gives of a sector.
    fn sector(&self, sector: u64) -> &[u8]
        requires { sector < self.now.sectors }
        ensures size { length result.now ≡ 512 }
        ensures bytes { result.now ≡ contents_of (memory_state self.now) sector }
    {
        bytes_in(&self.start, &self.written, sector, self.place(sector))
    }

    // Where a read finds a sector.
    fn place(&self, sector: u64) -> Place
        requires { sector < self.now.sectors }
        ensures last { result ≡ (trace_of sector self.now.calls).last }
        ensures placed { IsPlaced (length self.now.written) result }
    {
        self.places[sector as usize]
    }

    // What a read gives of these sectors.
    pub(crate) fn copy(&self, first: u64, out: &mut [u8])
        requires whole { length out.old % 512 ≡ 0 }
        requires within { 512 * first + length out.old ≤ 512 * self.now.sectors }
        ensures { Holds (contents_of (memory_state self.now)) first out.new }
    {
        // That a sector's number fits its type.
        let _sectors = &self.sectors;
        for i in 0..out.len() / SECTOR_BYTES {
            let at = SECTOR_BYTES * i;
            out[at..at + SECTOR_BYTES].copy_from_slice(self.sector(first + i as u64));
        }
    }
}
