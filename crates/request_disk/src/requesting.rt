//! The disk.
ghost use Rattle.std.specs.Prelude.{◌≡◌, ℕ, ◌+◌, ◌*◌, ◌/◌, ◌%◌, ◌^◌, ◌<◌, ◌≤◌, ◌==◌, length, take, drop, List, ◌∷◌, ◌++◌, [], true, false, IsTrue, IfOk, IfSome, OnOk, OnErr, Option, Some, None, MatchOption, MatchResult, is_err, is_some, if◌then◌else◌};
ghost use Rattle.disk.specs.State.{contents_of, sector_of, AreSectors, Counted, Touches, Holds, AreOpen, OpenOrSame, SameOpenOutside, SameOpen, IsSynced};
ghost use Rattle.disk.specs.Reserve.{Spends};
ghost use Rattle.disk.specs.Record.{IsWithin};

use crate::known::{Known, KnownSectors};
use crate::medium::Medium;
use crate::requests::found;
use disk::{Call, DiskFault, SECTOR_BYTES, Span, WriteDisk};
use std::alloc::Global;
use std::marker::Model;
use units::NoMemory;

/// How many requests there is space for: a power-up makes seven, a flush six.
pub const MOST_REQUESTS: usize = 16;

/// How many bytes there is space for: a commit writes seven sectors.
pub const MOST_BYTES: usize = 8192;

/// A disk that notes each write and each sync as a request. It holds some sectors of its medium, takes all its memory
/// where it is made, and says which sector is wanted. A call beyond its space answers DiskFault and changes nothing
/// else.
#[derive(Drop)]
pub struct RequestDisk {
    sectors: u64,
    // What the medium held when the list was last empty.
    medium: Medium,
    // The same, as far as it is at hand: some sectors, from the one that came first on.
    known: KnownSectors,
    requests: Vec<Call>,
    // The bytes of the requests.
    written: Vec<u8>,
    faults: u64,
    wanted: Option<u64>,
}

impl Model for RequestDisk {
    ghost use Rattle.request_disk.specs.Known.{numbers_of};
    ghost use Rattle.request_disk.specs.Requesting.{Requesting, IsKept};

    ghost Value = { Requesting };

    ghost view = { λ m. record { sectors = m.sectors; medium = m.medium.bytes; known = numbers_of m.known; requests = m.requests.items; written = m.written.items; faults = m.faults; wanted = m.wanted } };

    ghost invariant = { IsKept };
}

impl RequestDisk {
    ghost use Rattle.request_disk.specs.Requests.{IsRequest, ends_in_sync};
    ghost use Rattle.request_disk.specs.Requesting.{nothing_of, request_state, request_reserve, has_space_for, knows, with_sector, with_carried, wanting_nothing, IsRequesting, IsNoted};

    /// A disk on a medium of so many sectors, of which none is known. NoMemory where there is none for it.
    pub fn on(alloc: Global, sectors: u64) -> Result<RequestDisk, NoMemory>
        ghost medium: { List ℕ }
        requires { length medium ≡ 512 * sectors }
        ensures exact { IfOk result (λ d. d ≡ nothing_of medium sectors) }
        ensures contents { IfOk result (λ d. (s : ℕ) → contents_of (request_state d) s ≡ sector_of medium s) }
        ensures synced { IfOk result (λ d. IsSynced (request_state d)) }
    {
        Ok(RequestDisk {
            sectors,
            medium: Medium::of(),
            known: KnownSectors::new(alloc)?,
            requests: Vec::with_capacity(alloc, MOST_REQUESTS)?,
            written: Vec::with_capacity(alloc, MOST_BYTES)?,
            faults: 0,
            wanted: None,
        })
    }

    /// The sector that is wanted, until one is handed in.
    pub fn wanted(&self) -> Option<u64>
        ensures { result ≡ self.now.wanted }
    {
        self.wanted
    }

    // Whether a sector is known.
    fn knows(&self, sector: u64) -> bool
        ensures { result ≡ knows sector self.now }
    {
        found(&self.requests, sector, self.sectors, self.written.len()).is_some()
            || self.known.has(sector)
    }

    /// Whether a sector is known; where it isn't, it is wanted from now on. A caller asks so for what a step will read
    /// before the step begins.
    pub fn seek(&mut self, sector: u64) -> bool
        ensures exact { result ≡ knows sector self.old }
        ensures known { result ≡ true → self.new ≡ self.old }
        ensures unknown { result ≡ false → self.new ≡ record self.old { wanted = Some sector } }
    {
        let known = self.knows(sector);
        if !known {
            self.wanted = Some(sector);
        }
        known
    }

    /// Hands in what the medium holds of a sector; nothing where it is known. Where 16 sectors were handed in the one
    /// that came first is forgotten. The caller owes a sector that the medium has. Where the bytes aren't what the
    /// medium holds, the disk is from then on one on a medium that held them.
    pub fn provide(&mut self, sector: u64, bytes: &[u8; SECTOR_BYTES])
        requires { sector < self.old.sectors }
        ensures exact { self.new ≡ with_sector sector bytes.now self.old }

        // Where the bytes are what the medium holds, the disk is what it was.
        ensures same { bytes.now ≡ contents_of (request_state self.old) sector →
            request_state self.new ≡ request_state self.old }
        ensures reported { knows sector self.old ≡ false → contents_of (request_state self.new) sector ≡ bytes.now }
        ensures others { (s : ℕ) → (s == sector) ≡ false →
            contents_of (request_state self.new) s ≡ contents_of (request_state self.old) s }

        // The sector is known, and what was known stays so where fewer than 16 were handed in.
        ensures known { knows sector self.new ≡ true }
        ensures stays { length self.old.known < 16 → (s : ℕ) → knows s self.old ≡ true → knows s self.new ≡ true }
    {
        self.wanted = None;
        if self.knows(sector) {
            return;
        }
        let span = Span {
            first: sector,
            sectors: 1,
            from: 0,
        };
        self.medium.carry(bytes, &[Call::Written(span)]);
        self.known.hold(Known {
            sector,
            bytes: *bytes,
        });
    }

    /// How many requests there are since the list was last emptied. Where there is none, there is space for 16 units.
    pub fn count(&self) -> usize
        ensures count { result ≡ length self.now.requests }
        ensures space { result ≡ 0 → request_reserve self.now ≡ 16 }
    {
        // That no request has no bytes.
        let _written = &self.written;
        self.requests.len()
    }

    // The request at a place.
    fn request_at(&self, index: usize) -> Option<Call>
        ensures none { result ≡ None → length self.now.requests ≤ index }
        ensures some { (call : Call) → result ≡ Some call →
            (index < length self.now.requests) × (take (index + 1) self.now.requests ≡ take index self.now.requests ++ call ∷ []) }
        ensures kept { IsRequesting self.now }
    {
        self.requests.get(index).copied()
    }

    /// A request by its place in the list, from 0 on: a sync, or a write of sectors that the medium has, whose bytes
    /// `bytes_of` reports.
    pub fn request(&self, index: usize) -> Option<Call>
        ensures none { result ≡ None → length self.now.requests ≤ index }
        ensures some { (call : Call) → result ≡ Some call →
            (index < length self.now.requests) × (take (index + 1) self.now.requests ≡ take index self.now.requests ++ call ∷ []) }
        ensures within { (call : Call) → result ≡ Some call →
            IsWithin self.now.sectors (length self.now.written) call }
    {
        self.request_at(index)
    }

    /// The bytes that a request of this disk writes; none of them where the span is none of its own.
    pub fn bytes_of(&self, span: Span) -> &[u8]
        ensures bytes { span.from + 512 * span.sectors ≤ length self.now.written →
            result.now ≡ take (512 * span.sectors) (drop span.from self.now.written) }
        ensures beyond { length self.now.written < span.from + 512 * span.sectors → result.now ≡ [] }
    {
        let most = self.written.len();
        if span.from > most || span.sectors > ((most - span.from) / SECTOR_BYTES) as u64 {
            return &[];
        }
        &self.written[span.from..span.from + SECTOR_BYTES * span.sectors as usize]
    }

    /// Whether the last request is a sync, or there is none: then no sector is open.
    pub fn is_synced(&self) -> bool
        ensures last { result ≡ ends_in_sync self.now.requests }
        ensures synced { result ≡ true → IsSynced (request_state self.now) }
    {
        let mut synced = true;
        for request in &self.requests {
            synced = matches!(request, Call::Synced);
        }
        synced
    }

    /// Empties the list, after a medium that carried it out: the disk holds what it held. Sectors that were handed in
    /// stay known, and hold what was written; of others that were written the bytes are forgotten. The caller owes that
    /// no sector is open, as `is_synced` reports.
    pub fn empty(&mut self)
        requires { IsSynced (request_state self.old) }
        ensures exact { self.new ≡ with_carried self.old }
        ensures contents { (s : ℕ) → contents_of (request_state self.new) s ≡ contents_of (request_state self.old) s }
        ensures synced { IsSynced (request_state self.new) }
    {
        self.wanted = None;
        self.medium.carry(&self.written, &self.requests);
        self.known
            .carry(&self.written, &self.requests, self.sectors);
        self.requests.clear();
        self.written.clear();
    }

    /// No sector is wanted from now on.
    pub fn want_nothing(&mut self)
        ensures { self.new ≡ wanting_nothing self.old }
    {
        self.wanted = None;
    }

    // Whether there is space for a request that writes so many bytes.
    fn has_space(&self, bytes: usize) -> bool
        ensures space { result ≡ has_space_for bytes self.now }
        ensures kept { IsRequesting self.now }
    {
        self.requests.len() < MOST_REQUESTS && bytes <= MOST_BYTES - self.written.len()
    }

    // Notes a request, and the bytes that it writes. It takes no memory.
    fn note(&mut self, request: Call, bytes: &[u8])
        requires space { IsTrue (has_space_for (length bytes.now) self.old) }
        requires within { IsWithin self.old.sectors (length self.old.written + length bytes.now) request }
        requires only { IsRequest request }
        ensures { IsNoted request bytes.now self.old self.new }
    {
        self.written.extend_from_slice(bytes).unwrap();
        self.requests.push(request).unwrap();
    }

    // Counts a failure.
    fn fault(&mut self) -> DiskFault
        ensures { self.new ≡ record self.old { faults = (self.old.faults + 1) % 2 ^ 64 } }
    {
        self.faults = self.faults.wrapping_add(1);
        DiskFault
    }

    /// What the medium holds of a sector after these requests, None where that isn't known. The caller owes a sector
    /// that the medium has.
    pub fn sector(&self, sector: u64) -> Option<&[u8]>
        requires { sector < self.now.sectors }
        ensures known { is_some result ≡ knows sector self.now }
        ensures size { IfSome result (λ bytes. length bytes.now ≡ 512) }
        ensures bytes { IfSome result (λ bytes. bytes.now ≡ contents_of (request_state self.now) sector) }
    {
        match found(&self.requests, sector, self.sectors, self.written.len()) {
            Some(at) => Some(&self.written[at..at + SECTOR_BYTES]),
            None => self.known.bytes_of(sector),
        }
    }
}

impl WriteDisk for RequestDisk {
    ghost use Rattle.request_disk.specs.Requesting.{request_state, request_reserve, has_space_for, write_of, IsNoted};
    ghost use Rattle.disk.specs.declared.record.Call.TheVariants.{Synced};

    ghost state = { request_state };

    ghost reserve = { request_reserve };

    fn sectors(&self) -> u64 {
        self.sectors
    }

    fn write(&mut self, first: u64, bytes: &[u8]) -> Result<(), DiskFault>
        requires { AreSectors first (length bytes.now) (request_state self.old).sectors }
        ensures counted { Counted (is_err result) (request_state self.old) (request_state self.new) }
        ensures spent { Spends (length bytes.now / 512) (is_err result) (request_reserve self.old) (request_reserve self.new) }
        ensures moments { Touches first (length bytes.now) (request_state self.old) (request_state self.new) }
        ensures opened { OnOk result (AreOpen (request_state self.new) first (length bytes.now)) }
        ensures failed { OnErr result (OpenOrSame first (length bytes.now) (request_state self.old) (request_state self.new)) }
        ensures others_open { SameOpenOutside first (length bytes.now) (request_state self.old) (request_state self.new) }
        ensures written { OnOk result (Holds (contents_of (request_state self.new)) first bytes.now) }

        // It fails exactly beyond the space, and else is the next request.
        ensures space { is_err result ≡ (if has_space_for (length bytes.now) self.old then false else true) }
        ensures noted { OnOk result (IsNoted (write_of first bytes.now self.old) bytes.now self.old self.new) }
        ensures beyond { OnErr result (self.new ≡ record self.old { faults = (self.old.faults + 1) % 2 ^ 64 }) }
    {
        if !self.has_space(bytes.len()) {
            return Err(self.fault());
        }
        let span = Span {
            first,
            sectors: (bytes.len() / SECTOR_BYTES) as u64,
            from: self.written.len(),
        };
        self.note(Call::Written(span), bytes);
        Ok(())
    }

    fn sync(&mut self) -> Result<(), DiskFault>
        ensures counted { Counted (is_err result) (request_state self.old) (request_state self.new) }
        ensures spent { Spends 1 (is_err result) (request_reserve self.old) (request_reserve self.new) }
        ensures moments { Touches 0 0 (request_state self.old) (request_state self.new) }
        ensures synced { OnOk result (IsSynced (request_state self.new)) }
        ensures failed { OnErr result (SameOpen (request_state self.old) (request_state self.new)) }

        // It fails exactly beyond the space, and else is the next request.
        ensures space { is_err result ≡ (if has_space_for 0 self.old then false else true) }
        ensures noted { OnOk result (IsNoted Synced [] self.old self.new) }
        ensures beyond { OnErr result (self.new ≡ record self.old { faults = (self.old.faults + 1) % 2 ^ 64 }) }
    {
        if !self.has_space(0) {
            return Err(self.fault());
        }
        self.note(Call::Synced, &[]);
        Ok(())
    }
}
