//! Sectors whose bytes are known.
ghost use Rattle.std.specs.Prelude.{◌≡◌, ℕ, ◌*◌, ◌==◌, ◌∷◌, ◌++◌, [], false, length, List, map, position, All, IfOk, IfSome, is_some};
ghost use Rattle.disk.specs.State.{sector_of};
ghost use Rattle.disk.specs.Record.{IsWithin};
ghost use Rattle.request_disk.specs.Medium.{carried};
ghost use Rattle.request_disk.specs.Known.{numbers_of, has_number, with_number, IsHeld, with_space, renewed};

use crate::requests::found;
use disk::{Call, SECTOR_BYTES};
use std::alloc::Global;
use std::marker::Model;
use units::NoMemory;

/// How many sectors are held at most. A block has six.
pub const MOST_KNOWN: usize = 16;

/// A sector and its bytes.
#[derive(Clone, Copy)]
pub struct Known {
    /// Its number.
    pub sector: u64,
    /// What the medium holds of it.
    pub bytes: [u8; SECTOR_BYTES],
}

/// The sectors that are held, from the one that came first on. It takes all its memory where it is made.
#[derive(Drop)]
pub struct KnownSectors {
    entries: Vec<Known>,
    // The place of the one that came first: a later one takes it, and those after it came next, then those from 0 on.
    oldest: usize,
}

impl Model for KnownSectors {
    ghost use Rattle.std.specs.Prelude.{List};
    ghost use Rattle.request_disk.specs.declared.known.Known.{Known};
    ghost use Rattle.request_disk.specs.Known.{in_order, IsKnown};

    ghost Value = { List Known };

    ghost view = { in_order };

    ghost invariant = { IsKnown };
}

// The first place of a sector among these.
fn place_in(known: &[Known], sector: u64) -> Option<usize>
    ensures { result ≡ position (λ k. k.sector == sector) known.now }
{
    known.iter().position(|entry| entry.sector == sector)
}

// Carries the requests out on one.
fn renew_one(entry: &mut Known, written: &[u8], requests: &[Call], sectors: u64)
    requires { All (IsWithin sectors (length written.now)) requests.now }
    ensures { entry.new ≡ renewed written.now requests.now entry.old }
{
    if let Some(at) = found(requests, entry.sector, sectors, written.len()) {
        entry.bytes.copy_from_slice(&written[at..at + SECTOR_BYTES]);
    }
}

// Carries the requests out on each of these.
fn renew(known: &mut [Known], written: &[u8], requests: &[Call], sectors: u64)
    requires { All (IsWithin sectors (length written.now)) requests.now }
    ensures { known.new ≡ map (renewed written.now requests.now) known.old }
{
    for i in 0..known.len() {
        renew_one(&mut known[i], written, requests, sectors);
    }
}

impl KnownSectors {
    /// None is held yet. NoMemory where there is none for 16.
    pub fn new(alloc: Global) -> Result<KnownSectors, NoMemory>
        ensures { IfOk result (λ known. known ≡ []) }
    {
        Ok(KnownSectors {
            entries: Vec::with_capacity(alloc, MOST_KNOWN)?,
            oldest: 0,
        })
    }

    // Adds one after the others; where there are 16, it takes the place of the first.
    fn add(&mut self, entry: Known)
        ensures { self.new ≡ with_space self.old ++ entry ∷ [] }
    {
        if self.entries.len() < MOST_KNOWN {
            self.entries.push(entry).unwrap();
            return;
        }
        self.entries[self.oldest] = entry;
        self.oldest = (self.oldest + 1) % MOST_KNOWN;
    }

    /// Holds one sector more; where there are 16, the one that came first goes.
    pub fn hold(&mut self, entry: Known)
        ensures numbers { numbers_of self.new ≡ with_number entry.sector (numbers_of self.old) }

        // What was held stays, and this sector is held, on a medium that differs in no other one.
        ensures held { (sectors : ℕ) (medium after : List ℕ) → has_number entry.sector (numbers_of self.old) ≡ false →
            ((t : ℕ) → (t == entry.sector) ≡ false → sector_of after t ≡ sector_of medium t) → IsHeld sectors after entry →
            All (IsHeld sectors medium) self.old → All (IsHeld sectors after) self.new }
    {
        self.add(entry);
    }

    /// Whether a sector is held.
    pub fn has(&self, sector: u64) -> bool
        ensures { result ≡ has_number sector (numbers_of self.now) }
    {
        place_in(self.entries.as_slice(), sector).is_some()
    }

    /// What is held of a sector, None where it isn't.
    pub fn bytes_of(&self, sector: u64) -> Option<&[u8]>
        ensures known { is_some result ≡ has_number sector (numbers_of self.now) }
        ensures size { IfSome result (λ bytes. length bytes.now ≡ 512) }
        ensures bytes { (sectors : ℕ) (medium : List ℕ) → All (IsHeld sectors medium) self.now →
            IfSome result (λ bytes. bytes.now ≡ sector_of medium sector) }
    {
        let known = self.entries.as_slice();
        match place_in(known, sector) {
            Some(place) => Some(&known[place].bytes),
            None => None,
        }
    }

    /// Carries the requests out on what is held. The caller owes requests whose sectors and bytes are there.
    pub fn carry(&mut self, written: &[u8], requests: &[Call], sectors: u64)
        requires { All (IsWithin sectors (length written.now)) requests.now }
        ensures numbers { numbers_of self.new ≡ numbers_of self.old }
        ensures held { (medium : List ℕ) → length medium ≡ 512 * sectors → All (IsHeld sectors medium) self.old →
            All (IsHeld sectors (carried written.now medium requests.now)) self.new }
    {
        renew(&mut self.entries, written, requests, sectors);
    }
}
