//! The lines of all slots.

use crate::findings::names::{write_field, write_format};
use crate::findings::verdict::ExamineLine;
use crate::image_ring::ImageRing;
use crate::sink::{LineSink, hand_on};
use blocks::{Block, Format};
use disk::Disk;
use examination::{Fault, FieldName, Slot, SlotState, first_event, slot_at};
use lives::{WalkError, held};
use serde::Serialize;

/// What a block reports of itself.
#[derive(Drop, Serialize)]
pub struct BlockFacts {
    /// Its number.
    pub block: u64,
    /// Its format.
    #[serde(serialize_with = "write_format")]
    pub format: Format,
    /// The number of the last life in it.
    pub life: u32,
    /// The number of its first event.
    pub first_event: u64,
    /// The number of its last event.
    pub last_event: u64,
}

/// A block that belongs to its slot.
#[derive(Drop, Serialize)]
pub struct OwnBlock {
    /// The block.
    #[serde(flatten)]
    pub facts: BlockFacts,
    /// Whether the gate is the one that is written for its number.
    pub gate_is_own: bool,
    /// Whether the journal has it; else it is before a gap.
    pub in_journal: bool,
}

/// What is no block, but begins with a number that belongs to the slot.
#[derive(Drop, Serialize)]
pub struct UnreadableBlock {
    /// That number.
    pub block: u64,
    /// The first wrong field; there always is one.
    #[serde(serialize_with = "write_field")]
    pub field: Option<FieldName>,
    /// The number of the record with this field; None in the head and after the records.
    pub record: Option<u8>,
    /// The offset of the field in the file, in bytes.
    pub byte: Option<u64>,
}

/// What begins with a number that belongs to another slot.
#[derive(Drop, Serialize)]
pub struct MisplacedBlock {
    /// That number.
    pub block: u64,
    /// Whether its own slot holds the block too.
    pub also_in_its_slot: bool,
}

/// What a slot holds.
#[derive(Drop, Serialize)]
#[serde(tag = "state", rename_all = "snake_case")]
pub enum SlotContent {
    /// The gate is open, and a block of this slot is after it.
    Block(OwnBlock),
    /// The gate is open, and a number of this slot but no block is after it.
    Unreadable(UnreadableBlock),
    /// The gate is open, and a number of another slot is after it.
    Misplaced(MisplacedBlock),
    /// The gate is open, and no mark and number is after it.
    Foreign,
    /// The gate is closed, and the block after the newest is after it.
    Unwritten(BlockFacts),
    /// The gate is closed, and another block of this slot is after it.
    Replaced(BlockFacts),
    /// The gate is closed, and neither zeros nor a block of this slot are after it.
    Remains,
}

/// A slot that isn't empty.
#[derive(Drop, Serialize)]
pub struct SlotLine {
    /// Its number.
    pub slot: u64,
    /// The first of its sectors.
    pub first_sector: u64,
    /// The last of its sectors.
    pub last_sector: u64,
    /// What it holds.
    #[serde(flatten)]
    pub content: SlotContent,
}

// What a block of this number reports of itself.
fn facts_of(number: u64, block: &Block) -> BlockFacts {
    BlockFacts {
        block: number,
        format: block.format,
        life: block.kept.lives,
        first_event: first_event(block),
        last_event: block.kept.events.saturating_sub(1),
    }
}

// What begins with this number, with its first wrong field.
fn unreadable_block(slot: u64, number: u64, fault: Option<Fault>) -> UnreadableBlock {
    let place = fault.map_or(0, |fault| fault.place);
    let first = slot.saturating_mul(3072).saturating_add(1024);
    UnreadableBlock {
        block: number,
        field: fault.map(|fault| fault.name),
        record: if place == 0 { None } else { Some(place) },
        byte: fault.map(|fault| first.saturating_add(u64::from(fault.at))),
    }
}

// What a slot holds; None where it is empty. A misplaced number may be in its own slot too.
fn content_of(
    ring: ImageRing,
    slot: u64,
    seen: Slot,
    is_twice: bool,
    block: &Block,
) -> Option<SlotContent> {
    match seen.state {
        SlotState::Block(number) => Some(SlotContent::Block(OwnBlock {
            facts: facts_of(number, block),
            gate_is_own: seen.is_sound,
            in_journal: ring.has(number),
        })),
        SlotState::Unreadable(number) => Some(SlotContent::Unreadable(unreadable_block(
            slot, number, seen.fault,
        ))),
        SlotState::Misplaced(number) => Some(SlotContent::Misplaced(MisplacedBlock {
            block: number,
            also_in_its_slot: is_twice,
        })),
        SlotState::Foreign => Some(SlotContent::Foreign),
        SlotState::Unwritten(number) => Some(SlotContent::Unwritten(facts_of(number, block))),
        SlotState::Replaced(number) => Some(SlotContent::Replaced(facts_of(number, block))),
        SlotState::Remains => Some(SlotContent::Remains),
        SlotState::Empty => None,
    }
}

/// Whether the slot of this number holds its block, which then is this one. DeviceFault where the read fails, or the disk
/// hasn't the sectors of the whole slots.
pub(crate) fn is_held<D: Disk>(
    disk: &mut D,
    ring: ImageRing,
    number: u64,
    block: &mut Block,
) -> Result<bool, WalkError> {
    if disk.sectors() < 1 + 6 * ring.whole {
        return Err(WalkError::DeviceFault);
    }
    held(disk, ring.slots, ring.whole, number, block).map_err(|_| WalkError::DeviceFault)
}

/// Hands on a line for each slot that isn't empty, in their order, and answers whether each is as a unit leaves it. Device
/// where a read fails, or the disk hasn't the sectors of a whole slot; else the error of the sink.
pub(crate) fn report_slots<D: Disk, S: LineSink<ExamineLine>>(
    disk: &mut D,
    ring: ImageRing,
    sink: &mut S,
) -> Result<bool, WalkError> {
    let mut block = Block::blank();
    let mut is_sound = true;
    for slot in 0..ring.whole {
        if disk.sectors() < 7 + 6 * slot {
            return Err(WalkError::DeviceFault);
        }
        let seen = slot_at(disk, ring.slots, ring.run.newest, slot, &mut block).map_err(
            |_| WalkError::DeviceFault,
        )?;
        let is_twice = match seen.state {
            SlotState::Misplaced(number) => is_held(disk, ring, number, &mut Block::blank())?,
            _ => false,
        };
        if let Some(content) = content_of(ring, slot, seen, is_twice, &block) {
            let line = SlotLine {
                slot,
                first_sector: 1 + 6 * slot,
                last_sector: 6 + 6 * slot,
                content,
            };
            hand_on(&ExamineLine::Slot(line), sink)?;
        }
        is_sound = is_sound && seen.is_sound;
    }
    Ok(is_sound)
}
