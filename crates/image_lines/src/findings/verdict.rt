//! An examination of an image, from its first sector to the verdict.

use crate::findings::gaps::{BetweenLine, report_between};
use crate::findings::image::{FileFacts, ImageFacts, image_facts};
use crate::findings::power_up::{JournalObject, Opened, PowerUpResult, opened_on};
use crate::findings::slots::{SlotLine, report_slots};
use crate::image_ring::ring_of;
use crate::sink::{LineSink, hand_on, hand_on_each};
use disk::Disk;
use examination::{FirstSector, first_sector_of, survey_of};
use lives::WalkError;
use serde::Serialize;

/// A line of an examination. As JSON it is a part of one object.
#[derive(Drop, Serialize)]
#[serde(untagged)]
pub enum ExamineLine {
    /// The image as a whole.
    Image(ImageFacts),
    /// A slot that isn't empty.
    Slot(SlotLine),
    /// What is lost between blocks, or contradicts.
    Between(BetweenLine),
    /// The journal; None where the image isn't formatted or is damaged.
    Journal(Option<JournalObject>),
    /// What a power-up would do.
    PowerUp(PowerUpResult),
    /// The end: whether nothing is lost or damaged, and nothing contradicts.
    End(bool),
}

/// What an image is found to be.
#[derive(Clone, Copy)]
pub enum Verdict {
    /// Nothing is lost or damaged, and nothing contradicts.
    Whole,
    /// It isn't formatted: its first sector is damaged, or there is none, and no number of slots was given.
    Refused,
    /// Something is lost or damaged, or contradicts.
    NotWhole,
}

// Hands on the journal, what a power-up would do, and the verdict.
fn report_last<S: LineSink<ExamineLine>>(
    opened: Opened,
    verdict: Verdict,
    sink: &mut S,
) -> Result<(), WalkError> {
    let lines = [
        Some(ExamineLine::Journal(opened.journal)),
        Some(ExamineLine::PowerUp(opened.power_up)),
        Some(ExamineLine::End(matches!(verdict, Verdict::Whole))),
    ];
    hand_on_each(&lines, sink)
}

/// Examines an image: it reads each slot, whatever the journal's run is, hands the lines of the image, of its slots, of
/// what is lost or contradicts, of the journal and of a power-up to a sink, and answers what the image is found to be. The
/// disk may read as an image of a number of slots that isn't the one that the file's first sector says: then it isn't
/// whole. It settles the disk, and writes nothing to it. DeviceFault where the device fails, Write and NoMemory of the
/// sink.
pub fn examine<D: Disk, S: LineSink<ExamineLine>>(
    disk: &mut D,
    file: &FileFacts,
    sink: &mut S,
) -> Result<Verdict, WalkError> {
    let Ok(survey) = survey_of(disk) else {
        return Err(WalkError::DeviceFault);
    };
    let opened = opened_on(disk)?;
    hand_on(&ExamineLine::Image(image_facts(file, survey)), sink)?;
    let Some(slots) = survey.slots else {
        report_last(opened, Verdict::Refused, sink)?;
        return Ok(Verdict::Refused);
    };
    let ring = ring_of(disk, survey, slots)?;
    let is_sound = report_slots(disk, ring, sink)?;
    let is_clean = report_between(disk, ring, sink)?;
    let is_described =
        matches!(first_sector_of(&file.first), FirstSector::Readable(own) if own == slots);
    let is_sized = is_described && ring.is_sized();
    let verdict = if is_sound && is_clean && is_sized && opened.power_up.opens {
        Verdict::Whole
    } else {
        Verdict::NotWhole
    };
    report_last(opened, verdict, sink)?;
    Ok(verdict)
}
