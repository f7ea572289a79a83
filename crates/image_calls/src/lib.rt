//! What a program asks an image that it has mapped (this project's profile; `docs/reference/format.md`): its slots, its
//! blocks and their records, the journal from the oldest record to the newest, whether the journal agrees with the
//! kernel, and why an event was answered so. A call that runs a life through the kernel again takes memory, and gives
//! it back before it answers; no other does. Nothing is kept, and nothing is written to the image. Slots and events are
//! numbered from 0, blocks from 1.
#![tactic(auto)]

mod answer;
mod asking;
mod block_heads;
mod description;
mod facts;
mod image_disk;
mod images;
mod journals;
mod lines;
mod links;
mod numbers;
mod records;
mod replays;
mod running;
mod slot_starts;
mod slots;
mod verdicts;
mod why_numbers;
mod whys;

pub use answer::Answer;
pub use block_heads::{EtcsBlock, block_call};
pub use description::EtcsWhy;
pub use facts::{EtcsImage, facts_call};
pub use images::{Ring, held_in, ring_in, slot_in};
pub use journals::{EtcsJournal, journal_call, next_call};
pub use links::first_cold;
pub use records::{EtcsRecord, record_call, record_reported};
pub use replays::replay_call;
pub use slot_starts::{EtcsSlotStart, slot_start_call};
pub use slots::{EtcsSlot, slot_call};
pub use verdicts::EtcsReplay;
pub use whys::why_call;
