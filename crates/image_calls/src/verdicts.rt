//! A line of a replay, as C gets it.
ghost use Rattle.std.specs.Prelude.{◌≡◌};
ghost use Rattle.image_calls.specs.Verdicts.{record_field_number, kept_field_number, unknown_number, verdict_of, no_record, no_kept, no_line};
ghost use Rattle.image_calls.specs.Verdicts.{verdict_reported, record_differs, DescribesHead};

use crate::records::{EtcsRecord, record_reported};
use blocks::{Block, BlockRecord};
use c_numbers::{EtcsKept, EtcsNational, kept_reported, train_reported};
use lives::Unknown;
use replaying::{HeadFound, Judged, KeptField, RecordField};

/// A line of a replay.
#[repr(C)]
#[derive(Clone, Copy)]
pub struct EtcsReplay {
    /// The number of the first event that the line says about; 0 of a head.
    pub first_event: u64,
    /// The number of the last one; 0 of a head.
    pub last_event: u64,
    /// The block of what differs; 0 where nothing does.
    pub block: u64,
    /// The event of a record that differs; else 0.
    pub event: u64,
    /// The number of the life: how many power-ups there were up to and with the first of its events, of a head up to
    /// it.
    pub life: u32,
    /// 1 the events agree, 2 a record differs, 3 a head differs; not run again: 4 what was kept before their life was
    /// overwritten, 5 they come after a gap, 6 their life begins within a block, 7 they come after a record that
    /// differs.
    pub verdict: u32,
    /// The field that differs first, 1 to 11 of a record, 1 to 10 of a head; 0 where nothing differs.
    pub field: u32,
    /// 0.
    pub reserved: u32,
    /// The record that differs, as the journal says it; zeros where none does.
    pub journal: EtcsRecord,
    /// The same as the kernel answers it.
    pub kernel: EtcsRecord,
    /// What the head that differs reports; zeros where none does.
    pub journal_kept: EtcsKept,
    /// What the kernel keeps there.
    pub kernel_kept: EtcsKept,
}

/// Events of one life that follow one another, by their numbers.
#[derive(Clone, Copy)]
pub(crate) struct Span {
    pub(crate) first_event: u64,
    pub(crate) last_event: u64,
    pub(crate) life: u32,
}

fn record_field_number(field: RecordField) -> u32
    ensures { result ≡ record_field_number field }
{
    field as u32 + 1
}

fn kept_field_number(field: KeptField) -> u32
    ensures { result ≡ kept_field_number field }
{
    field as u32 + 1
}

// Why events are not run again, where nobody knows what was kept before their life.
fn unknown_number(unknown: Unknown) -> u32
    ensures { result ≡ unknown_number unknown }
{
    unknown as u32 + 4
}

/// The verdict on events of a life that is judged so.
pub(crate) fn verdict_of(judged: &Judged) -> u32
    ensures { result ≡ verdict_of judged.now }
{
    match judged {
        Judged::Agrees(_) => 1,
        Judged::Unknown(unknown) => unknown_number(*unknown),
        Judged::AfterDifference => 7,
    }
}

// No record.
fn no_record() -> EtcsRecord
    ensures { result ≡ no_record }
{
    EtcsRecord {
        event: 0,
        block: 0,
        moment: 0,
        front: 0,
        uncertainty: 0,
        limit: 0,
        life: 0,
        format: 0,
        kind: 0,
        mode: 0,
        level: 0,
        brake: 0,
        indications: 0,
        has_place: 0,
        payload_len: 0,
        payload: [0; 104],
    }
}

// Nothing that is kept.
fn no_kept() -> EtcsKept
    ensures { result ≡ no_kept }
{
    EtcsKept {
        distance: 0,
        train: train_reported(None),
        running_number: 0,
        country: 0,
        group: 0,
        identity: [0; 16],
        identity_len: 0,
        has_running_number: 0,
        has_train: 0,
        level_status: 0,
        level: 0,
        position_status: 0,
        trip_outstanding: 0,
        reserved: 0,
        national: EtcsNational {
            shunting: 0,
            staff_responsible: 0,
            on_sight: 0,
            unfitted: 0,
            release: 0,
            roll: 0,
            override_allowed: 0,
            override_speed: 0,
            override_distance: 0,
            override_time: 0,
            staff_responsible_distance: 0,
            count: 0,
            countries: [0; 32],
        },
    }
}

/// A verdict without a difference.
pub(crate) fn verdict_reported(span: Span, verdict: u32) -> EtcsReplay
    ensures { result ≡ verdict_reported span verdict }
{
    EtcsReplay {
        first_event: span.first_event,
        last_event: span.last_event,
        block: 0,
        event: 0,
        life: span.life,
        verdict,
        field: 0,
        reserved: 0,
        journal: no_record(),
        kernel: no_record(),
        journal_kept: no_kept(),
        kernel_kept: no_kept(),
    }
}

/// No line.
pub(crate) fn no_line() -> EtcsReplay
    ensures { result ≡ no_line }
{
    let none = Span {
        first_event: 0,
        last_event: 0,
        life: 0,
    };
    verdict_reported(none, 0)
}

/// A record of this life differs.
pub(crate) fn record_differs(
    block: &Block,
    life: u32,
    field: RecordField,
    reported: &BlockRecord,
    answer: &BlockRecord,
) -> EtcsReplay
    ensures { result ≡ record_differs block.now life field reported.now answer.now }
{
    let span = Span {
        first_event: reported.number,
        last_event: reported.number,
        life,
    };
    let mut all = verdict_reported(span, 2);
    all.block = block.number;
    all.event = reported.number;
    all.field = record_field_number(field);
    all.journal = record_reported(block, life, reported);
    all.kernel = record_reported(block, life, answer);
    all
}

/// The head of a block differs.
pub(crate) fn head_differs(block: &Block, found: &HeadFound) -> EtcsReplay
    ensures { DescribesHead block.now found.now result }
{
    let span = Span {
        first_event: 0,
        last_event: 0,
        life: block.kept.lives,
    };
    let mut all = verdict_reported(span, 3);
    all.block = block.number;
    all.field = kept_field_number(found.field);
    all.journal_kept = kept_reported(&block.kept);
    all.kernel_kept = kept_reported(&found.kept);
    all
}
