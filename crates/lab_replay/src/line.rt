//! The lines of a replay (`docs/reference/json.md`).

use crate::serializing::{write_kept, write_kept_field, write_reason, write_record_field};
use blocks::{Block, BlockRecord};
use events::{Brake, Indications, Kept};
use image_lines::{Reason, Stretch, write_brake, write_indications, write_level, write_mode};
use mode_table::{Mode, TrainLevel};
use replaying::{Found, HeadFound, Judged, KeptField, RecordField};
use serde::Serialize;

/// What a replay finds of the events, the record, the head or the block of a line.
#[derive(Clone, Copy, Serialize)]
#[serde(rename_all = "snake_case")]
pub enum Verdict {
    /// The records are the kernel's answers.
    Agrees,
    /// The events aren't replayed.
    NotReplayed,
    /// The record isn't the kernel's answer.
    RecordDiffers,
    /// The head isn't what the kernel keeps.
    HeadDiffers,
    /// The block can't be read.
    Unreadable,
}

/// The result of a replay.
#[derive(Clone, Copy, Serialize)]
pub enum Outcome {
    /// Nothing differs, and nothing is lost between the blocks that are retained.
    #[serde(rename = "nothing_differs")]
    Whole,
    /// Something differs, or is lost.
    #[serde(rename = "differs_or_lost")]
    Differs,
}

/// Events of one life that follow one another.
#[derive(Drop, Serialize)]
pub struct StretchLine {
    /// The number of the life, as the heads record it.
    pub life: u32,
    /// The number of the first event.
    pub first_event: u64,
    /// The number of the last event.
    pub last_event: u64,
    /// Whether they agree, or aren't replayed.
    pub replay: Verdict,
    /// Why they aren't replayed; None where they are.
    #[serde(serialize_with = "write_reason", skip_serializing_if = "Option::is_none")]
    pub reason: Option<Reason>,
}

/// The answer to an event.
#[derive(Drop, Serialize)]
pub struct Answer {
    /// The number of the event.
    pub event: u64,
    /// Its moment, in milliseconds of the life.
    pub time_ms: u64,
    /// The mode after the event.
    #[serde(serialize_with = "write_mode")]
    pub mode: Mode,
    /// The level after the event; None where it isn't valid.
    #[serde(serialize_with = "write_level")]
    pub level: Option<TrainLevel>,
    /// The brake command.
    #[serde(serialize_with = "write_brake")]
    pub brake: Brake,
    /// The indications to the driver.
    #[serde(serialize_with = "write_indications")]
    pub indications: Indications,
    /// The estimated place of the front, in centimetres; None in format 1.
    #[serde(skip_serializing_if = "Option::is_none")]
    pub place_cm: Option<i64>,
    /// The uncertainty of the place to either side, in centimetres; None in format 1.
    #[serde(skip_serializing_if = "Option::is_none")]
    pub uncertainty_cm: Option<u64>,
    /// The speed limit, in metres per hour; None in format 1.
    #[serde(skip_serializing_if = "Option::is_none")]
    pub limit_m_per_h: Option<u32>,
}

/// A record that isn't the kernel's answer.
#[derive(Drop, Serialize)]
pub struct RecordLine {
    /// The number of its life, as the heads record it.
    pub life: u32,
    /// The number of its block.
    pub block: u64,
    /// The number of its event.
    pub event: u64,
    /// That it differs.
    pub replay: Verdict,
    /// The first field that differs.
    #[serde(serialize_with = "write_record_field")]
    pub field: RecordField,
    /// The record.
    pub journal: Answer,
    /// The kernel's answer, as the format of the block records it.
    pub kernel: Answer,
}

/// A head that isn't what the kernel keeps.
#[derive(Drop, Serialize)]
pub struct HeadLine {
    /// The number of its life, as it records it.
    pub life: u32,
    /// The number of its block.
    pub block: u64,
    /// That it differs.
    pub replay: Verdict,
    /// The first field that differs.
    #[serde(serialize_with = "write_kept_field")]
    pub field: KeptField,
    /// The values in the head.
    #[serde(serialize_with = "write_kept")]
    pub journal: Kept,
    /// What the kernel keeps, as the format of the block records it.
    #[serde(serialize_with = "write_kept")]
    pub kernel: Kept,
}

/// A block that can't be read.
#[derive(Drop, Serialize)]
pub struct LostBlock {
    /// Its number.
    pub block: u64,
    /// That it can't be read.
    pub replay: Verdict,
}

/// The last line.
#[derive(Drop, Serialize)]
pub struct EndLine {
    /// The result of the replay.
    pub end: Outcome,
}

/// A line of a replay.
#[derive(Drop, Serialize)]
#[serde(untagged)]
pub enum ReplayLine {
    /// Events that agree, or aren't replayed.
    Stretch(StretchLine),
    /// A record that differs.
    Record(RecordLine),
    /// A head that differs.
    Head(HeadLine),
    /// A block that can't be read.
    Lost(LostBlock),
    /// The end.
    End(EndLine),
}

/// The line of events that agree, or aren't replayed.
pub(crate) fn stretch_line(judged: &Judged, stretch: Stretch) -> ReplayLine {
    let (replay, reason) = match judged {
        Judged::Agrees(_) => (Verdict::Agrees, None),
        Judged::Unknown(why) => (Verdict::NotReplayed, Some(Reason::of(*why))),
        Judged::AfterDifference => (Verdict::NotReplayed, Some(Reason::AfterDifference)),
    };
    ReplayLine::Stretch(StretchLine {
        life: stretch.life,
        first_event: stretch.first,
        last_event: stretch.last,
        replay,
        reason,
    })
}

// The answer that a record holds.
fn answer_of(record: &BlockRecord) -> Answer {
    let (place_cm, uncertainty_cm, limit_m_per_h) = match record.situation {
        Some(at) => (
            Some(at.estimate.get()),
            Some(at.uncertainty),
            Some(at.limit.get()),
        ),
        None => (None, None, None),
    };
    Answer {
        event: record.number,
        time_ms: record.moment.get(),
        mode: record.mode,
        level: record.level,
        brake: record.brake,
        indications: record.indications,
        place_cm,
        uncertainty_cm,
        limit_m_per_h,
    }
}

/// The line of a record of this life and block that differs.
pub(crate) fn record_line(
    life: u32,
    block: u64,
    record: &BlockRecord,
    found: &Found,
) -> ReplayLine {
    ReplayLine::Record(RecordLine {
        life,
        block,
        event: record.number,
        replay: Verdict::RecordDiffers,
        field: found.field,
        journal: answer_of(record),
        kernel: answer_of(&found.answer),
    })
}

/// The line of a block's head that differs.
pub(crate) fn head_line(block: &Block, found: &HeadFound) -> ReplayLine {
    ReplayLine::Head(HeadLine {
        life: block.kept.lives,
        block: block.number,
        replay: Verdict::HeadDiffers,
        field: found.field,
        journal: block.kept.copy(),
        kernel: found.kept.copy(),
    })
}
