//! The line of an image.
ghost use Rattle.std.specs.Prelude.{◌≤◌};
ghost use Rattle.blocks.specs.FirstSector.{most_slots};

use crate::findings::names::{write_digest, write_field};
use examination::{FieldName, FirstSector, Survey, first_sector_of};
use serde::Serialize;

/// What is reported of a file as a whole.
#[derive(Clone, Copy)]
pub struct FileFacts {
    /// How many bytes it has.
    pub bytes: u64,
    /// The SHA-256 of all of them, in lower-case hexadecimal digits; None where it wasn't taken.
    pub digest: Option<[u8; 64]>,
    /// The first 512 of them, as they stand in the file; None where it has fewer.
    pub first: Option<[u8; 512]>,
}

/// Whether a first sector can be read.
#[derive(Clone, Copy, Serialize)]
#[serde(rename_all = "snake_case")]
pub enum SectorState {
    /// It can.
    Readable,
    /// It can't.
    Unreadable,
    /// There is none.
    Missing,
}

/// What the first sector of a file holds.
#[derive(Drop, Serialize)]
pub struct SectorObject {
    /// Whether it can be read.
    pub state: SectorState,
    /// The first wrong field; None unless it is unreadable.
    #[serde(serialize_with = "write_field")]
    pub field: Option<FieldName>,
    /// The offset of that field, in bytes.
    pub byte: Option<u32>,
    /// Its number of slots; None unless it is readable.
    pub slots: Option<u64>,
    /// The slots of an image of this size; None where no image has it.
    pub size_slots: Option<u64>,
}

/// The image as a whole.
#[derive(Drop, Serialize)]
pub struct ImageFacts {
    /// The size of the file, in bytes.
    pub bytes: u64,
    /// Its whole sectors of 512 bytes.
    pub sectors: u64,
    /// The slots by the first sector, or as given; None where there is neither.
    pub slots: Option<u64>,
    /// How many slots have all their sectors.
    pub whole_slots: u64,
    /// The bytes after the last whole slot.
    pub trailing_bytes: u64,
    /// The SHA-256 of all bytes, in lower-case hexadecimal digits; None where it wasn't taken.
    #[serde(serialize_with = "write_digest")]
    pub sha256: Option<[u8; 64]>,
    /// What the first sector holds.
    pub first_sector: SectorObject,
}

// How many slots the image has that has so many sectors, if there is one.
fn slots_by_size(sectors: u64) -> Option<u64> {
    let slots = sectors.saturating_sub(1) / 6;
    if sectors % 6 == 1 && 2 <= slots && slots <= 1_048_576 {
        Some(slots)
    } else {
        None
    }
}

// What the first sector of a file holds, where an image of this size has so many slots.
fn sector_object(first: FirstSector, size_slots: Option<u64>) -> SectorObject {
    let (state, field, byte, slots) = match first {
        FirstSector::Readable(slots) => (SectorState::Readable, None, None, Some(slots)),
        FirstSector::Unreadable(Some(fault)) => (
            SectorState::Unreadable,
            Some(fault.name),
            Some(fault.at),
            None,
        ),
        FirstSector::Unreadable(None) => (SectorState::Unreadable, None, None, None),
        FirstSector::Missing => (SectorState::Missing, None, None, None),
    };
    SectorObject {
        state,
        field,
        byte,
        slots,
        size_slots,
    }
}

/// What is reported of an image that was surveyed so.
pub(crate) fn image_facts(file: &FileFacts, survey: Survey) -> ImageFacts
    requires { survey.whole ≤ most_slots }
{
    let first = first_sector_of(&file.first);
    ImageFacts {
        bytes: file.bytes,
        sectors: survey.sectors,
        slots: survey.slots,
        whole_slots: survey.whole,
        trailing_bytes: file.bytes.saturating_sub(512 * (1 + 6 * survey.whole)),
        sha256: file.digest,
        first_sector: sector_object(first, slots_by_size(survey.sectors)),
    }
}
