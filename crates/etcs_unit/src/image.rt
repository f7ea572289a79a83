//! The calls of `etcs_image.h`.
use image_calls::{
    EtcsBlock, EtcsImage, EtcsJournal, EtcsRecord, EtcsReplay, EtcsSlot, EtcsSlotStart, EtcsWhy,
    block_call, facts_call, journal_call, next_call, record_call, replay_call, slot_call,
    slot_start_call, why_call,
};
use std::alloc::Global;

/// What an image has at first sight.
#[unsafe(no_mangle)]
pub extern "C" fn etcs_image_facts_(image: &[u8], abi: u32, facts: &mut EtcsImage) -> u32 {
    facts_call(image, abi, facts).number()
}

/// What a slot holds, where the newest block has this number.
#[unsafe(no_mangle)]
pub extern "C" fn etcs_image_slot_(
    image: &[u8],
    abi: u32,
    newest: u64,
    slot: u64,
    reported: &mut EtcsSlot,
) -> u32 {
    slot_call(image, abi, newest, slot, reported).number()
}

/// What gate and head of a slot hold.
#[unsafe(no_mangle)]
pub extern "C" fn etcs_image_slot_start_(
    start: &[u8],
    abi: u32,
    slots: u64,
    slot: u64,
    found: &mut EtcsSlotStart,
) -> u32 {
    slot_start_call(start, abi, slots, slot, found).number()
}

/// What the head of the block of this number says.
#[unsafe(no_mangle)]
pub extern "C" fn etcs_image_block_(
    image: &[u8],
    abi: u32,
    number: u64,
    block: &mut EtcsBlock,
) -> u32 {
    block_call(image, abi, number, block).number()
}

/// A record of the block of this number, from 0 on.
#[unsafe(no_mangle)]
pub extern "C" fn etcs_image_record_(
    image: &[u8],
    abi: u32,
    number: u64,
    index: u32,
    record: &mut EtcsRecord,
) -> u32 {
    record_call(image, abi, number, index, record).number()
}

/// Opens the journal of an image.
#[unsafe(no_mangle)]
pub extern "C" fn etcs_journal_open_(image: &[u8], abi: u32, journal: &mut EtcsJournal) -> u32 {
    journal_call(image, abi, journal).number()
}

/// Gives the next record of a journal.
#[unsafe(no_mangle)]
pub extern "C" fn etcs_journal_next_(
    image: &[u8],
    journal: &mut EtcsJournal,
    record: &mut EtcsRecord,
) -> u32 {
    next_call(image, journal, record).number()
}

/// Runs the life that a journal is at through the kernel again, and goes on after it.
#[unsafe(no_mangle)]
pub extern "C" fn etcs_image_replay_(
    alloc: Global,
    image: &[u8],
    abi: u32,
    journal: &mut EtcsJournal,
    replay: &mut EtcsReplay,
) -> u32 {
    replay_call(alloc, image, abi, journal, replay).number()
}

/// Why an event of the block of this number was answered so.
#[unsafe(no_mangle)]
pub extern "C" fn etcs_image_why_(
    alloc: Global,
    image: &[u8],
    abi: u32,
    number: u64,
    event: u64,
    why: &mut EtcsWhy,
) -> u32 {
    why_call(alloc, image, abi, number, event, why).number()
}
