//! The record that a disk in memory keeps of its calls.
ghost use Rattle.std.specs.Prelude.{◌≡◌, ℕ, ◌+◌, ◌*◌, ◌^◌, ◌<◌, ◌≤◌, length, vec_len, All, IfOk, unwrap_or, slice_index_or};
ghost use Rattle.disk.specs.Record.{bytes_at, place_in, trace_next, trace_of, IsWithin, IsPlaced, AllPlaced};

use crate::SECTOR_BYTES;
use std::alloc::{AllocError, Global};

/// A call of the record.
#[derive(Clone, Copy)]
pub enum Call {
    /// A read, a sync that failed, or any call without power.
    Quiet,
    /// A sync that succeeded.
    Synced,
    /// A write that succeeded.
    Written(Span),
    /// A write that failed.
    Torn(Span),
}

/// What a write was handed.
#[derive(Clone, Copy)]
pub struct Span {
    /// The number of its first sector.
    pub first: u64,
    /// How many sectors.
    pub sectors: u64,
    /// Where its bytes begin among all that were handed in.
    pub from: usize,
}

/// Where the bytes of a sector are.
#[derive(Clone, Copy)]
pub enum Place {
    /// Among those that the disk began with.
    Start,
    /// From this offset on among those that were handed in.
    Record(usize),
}

/// What the record says of one sector.
#[derive(Clone, Copy)]
pub struct Trace {
    /// What a read gives.
    pub last: Place,
    /// What was last handed in, also to a write that failed.
    pub handed: Place,
    /// What a read gave at the last sync.
    pub synced: Place,
    /// Whether it was written since.
    pub is_open: bool,
}

impl Span {
    // Where the bytes of a sector are, if it is one of these.
    fn place_of(self, sector: u64) -> Option<Place>
        requires { self.from + 512 * self.sectors < 2 ^ 64 }
        ensures { result ≡ place_in self sector }
    {
        if self.first <= sector && sector - self.first < self.sectors {
            let offset = (sector - self.first) as usize * SECTOR_BYTES;
            Some(Place::Record(self.from + offset))
        } else {
            None
        }
    }
}

impl Trace {
    const START: Trace = Trace {
        last: Place::Start,
        handed: Place::Start,
        synced: Place::Start,
        is_open: false,
    };

    // What the record says of a sector after one more call.
    fn after(self, call: Call, sector: u64, sectors: u64, written: usize) -> Trace
        requires { IsWithin sectors written call }
        ensures { result ≡ trace_next sector self call }
    {
        match call {
            Call::Quiet => self,
            Call::Synced => Trace {
                synced: self.last,
                is_open: false,
                ..self
            },
            Call::Written(span) => match span.place_of(sector) {
                Some(place) => Trace {
                    last: place,
                    handed: place,
                    is_open: true,
                    ..self
                },
                None => self,
            },
            Call::Torn(span) => match span.place_of(sector) {
                Some(place) => Trace {
                    handed: place,
                    is_open: true,
                    ..self
                },
                None => self,
            },
        }
    }
}

/// Follows a sector through these calls. The caller owes calls whose sectors and bytes are there.
pub fn follow(calls: &[Call], sector: u64, sectors: u64, written: usize) -> Trace
    requires { All (IsWithin sectors written) calls.now }
    ensures trace { result ≡ trace_of sector calls.now }
    ensures placed { AllPlaced written result }
{
    let mut trace = Trace::START;
    for call in calls {
        trace = trace.after(*call, sector, sectors, written);
    }
    trace
}

/// The 512 bytes of a sector at this place. The caller owes a sector and a place that are there.
pub fn bytes_in<'a>(start: &'a [u8], written: &'a [u8], sector: u64, place: Place) -> &'a [u8]
    requires within { 512 * sector + 512 ≤ length start.now }
    requires placed { IsPlaced (length written.now) place }
    ensures size { length result.now ≡ 512 }
    ensures bytes { result.now ≡ bytes_at start.now written.now sector place }
{
    match place {
        Place::Start => {
            let at = sector as usize * SECTOR_BYTES;
            &start[at..at + SECTOR_BYTES]
        }
        Place::Record(at) => &written[at..at + SECTOR_BYTES],
    }
}

/// The places of so many sectors before the first call. AllocError where memory is refused.
pub fn unwritten(alloc: Global, sectors: usize) -> Result<Vec<Place>, AllocError>
    ensures size { IfOk result (λ places. vec_len places ≡ sectors) }
    ensures start { IfOk result (λ places. (s : ℕ) → s < sectors → slice_index_or places.items s Place.Start ≡ Place.Start) }
{
    let mut places = Vec::with_capacity(alloc, sectors)?;
    places.resize(sectors, Place::Start)?;
    Ok(places)
}

/// Notes where the bytes of these sectors are. The caller owes sectors that have places.
pub fn place_sectors(places: &mut [Place], span: Span)
    requires within { span.first + span.sectors ≤ length places.old }
    requires bytes { span.from + 512 * span.sectors < 2 ^ 64 }
    ensures { (s : ℕ) → slice_index_or places.new s Place.Start ≡ unwrap_or (place_in span s) (slice_index_or places.old s Place.Start) }
{
    let first = span.first as usize;
    for i in 0..span.sectors as usize {
        places[first + i] = Place::Record(span.from + SECTOR_BYTES * i);
    }
}
