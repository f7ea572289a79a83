//! The lines of the journal and of a power-up.
ghost use Rattle.std.specs.Prelude.{◌+◌, ◌*◌, ◌≤◌};

use crate::kept::KeptValues;
use blocks::{Block, LAST_NUMBER};
use disk::Disk;
use events::Kept;
use examination::first_event;
use journal::{BlockError, Found, Journal, OpenError};
use lives::WalkError;
use serde::{Serialize, Serializer};

/// The journal.
#[derive(Clone, Copy, Serialize)]
pub struct JournalObject {
    /// The number of its oldest block; None where it has none.
    pub first_block: Option<u64>,
    /// The number of its newest block; None where it has none.
    pub newest_block: Option<u64>,
    /// The number of its first event; None where it isn't known.
    pub first_event: Option<u64>,
    /// The number of its last event; None where there is none.
    pub last_event: Option<u64>,
    /// How many lives there were up to the newest block.
    pub lives: u32,
}

const EMPTY: JournalObject = JournalObject {
    first_block: None,
    newest_block: None,
    first_event: None,
    last_event: None,
    lives: 0,
};

/// Why a power-up would be refused (`docs/reference/refusals.md`).
#[derive(Clone, Copy, Serialize)]
pub enum Refusal {
    /// The first sector doesn't give a number of slots, or there is none.
    NotFormatted,
    /// The sectors aren't those of the slots, or the newest block can't be read.
    Damaged,
    /// The newest block has the last number that there is, so that a power-up can't be recorded.
    WornOut,
}

/// What a power-up would do.
#[derive(Drop, Serialize)]
pub struct PowerUpResult {
    /// Whether it opens the image.
    pub opens: bool,
    /// Why it doesn't; None where it does.
    pub refusal: Option<Refusal>,
    /// What the newest block keeps; None where no journal is found, or it has no block.
    #[serde(serialize_with = "write_kept")]
    pub kept: Option<Kept>,
}

/// What is kept, without the counts.
#[derive(Drop, Serialize)]
pub(crate) struct KeptObject<'a> {
    #[serde(flatten)]
    values: KeptValues<'a>,
    trip_outstanding: bool,
}

impl<'a> KeptObject<'a> {
    pub(crate) fn of(kept: &'a Kept) -> KeptObject<'a> {
        KeptObject {
            values: KeptValues::of(kept),
            trip_outstanding: kept.trip_outstanding,
        }
    }
}

fn write_kept<S: Serializer>(kept: &Option<Kept>, out: &mut S) -> Result<(), S::Error> {
    match kept {
        Some(kept) => KeptObject::of(kept).serialize(out),
        None => out.unit(),
    }
}

/// What a power-up would find.
#[derive(Drop)]
pub(crate) struct Opened {
    /// The journal; None where it can't be found.
    pub(crate) journal: Option<JournalObject>,
    /// What the power-up would do.
    pub(crate) power_up: PowerUpResult,
}

impl Opened {
    fn of(
        journal: Option<JournalObject>,
        refusal: Option<Refusal>,
        found: Option<Found>,
    ) -> Opened {
        let power_up = PowerUpResult {
            opens: refusal.is_none(),
            refusal,
            kept: found.map(|found| found.kept),
        };
        Opened { journal, power_up }
    }
}

// What is reported of a journal whose newest block keeps this. The number of the first event isn't known where the oldest
// block can't be read.
fn journal_object<D: Disk>(
    disk: &mut D,
    journal: &Journal,
    found: &Option<Found>,
) -> Result<JournalObject, WalkError>
    requires { 1 + 6 * journal.now.slots ≤ (D.state disk.old).sectors }
{
    let run = journal.blocks();
    if run.newest == 0 {
        return Ok(EMPTY);
    }
    let mut block = Block::blank();
    let first_event = match journal.block(disk, run.first, &mut block) {
        Ok(()) => Some(first_event(&block)),
        Err(BlockError::DeviceFault) => return Err(WalkError::DeviceFault),
        Err(BlockError::NotRetained | BlockError::Damaged) => None,
    };
    Ok(JournalObject {
        first_block: Some(run.first),
        newest_block: Some(run.newest),
        first_event,
        last_event: Some(journal.events().saturating_sub(1)),
        lives: found.as_ref().map_or(0, |found| found.kept.lives),
    })
}

/// Opens the journal as a power-up would, and writes nothing. DeviceFault where the device fails.
pub(crate) fn opened_on<D: Disk>(disk: &mut D) -> Result<Opened, WalkError> {
    match Journal::open(disk) {
        Ok((journal, found)) => {
            let object = journal_object(disk, &journal, &found)?;
            let is_worn_out = journal.blocks().newest >= LAST_NUMBER;
            let refusal = if is_worn_out {
                Some(Refusal::WornOut)
            } else {
                None
            };
            Ok(Opened::of(Some(object), refusal, found))
        }
        Err(OpenError::DeviceFault) => Err(WalkError::DeviceFault),
        Err(OpenError::NotFormatted) => Ok(Opened::of(None, Some(Refusal::NotFormatted), None)),
        Err(OpenError::Damaged) => Ok(Opened::of(None, Some(Refusal::Damaged), None)),
    }
}
