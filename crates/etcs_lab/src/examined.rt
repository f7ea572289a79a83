//! The commands `examine`, `replay` and `check`.

use crate::images::{Image, ImageDisk, opened, opened_whole};
use crate::status::{Status, fail, no_memory, reported, unformatted, unread, unwritten};
use command_line::LabImage;
use image_lines::{JsonExamination, JsonLines, TextLines, Verdict, examine};
use lab_replay::{Outcome, WalkError, replay};
use std::alloc::Global;
use std::fs::File;
use std::io::Write;
use std::rt::Files;
use text_output::Form;

/// Says why a walk over an image did not come to its end.
pub(crate) fn stopped<R: Eprint>(rt: &R, path: &str, error: WalkError) -> Status {
    let what = match error {
        WalkError::DeviceFault => return unread(rt, path),
        WalkError::NotFormatted => return unformatted(rt, path),
        WalkError::Damaged => "does not have the size that its first sector says",
        WalkError::NoMemory => return no_memory(rt, path),
        WalkError::Write => return unwritten(rt, path),
    };
    fail(rt, what, path, Status::Refused)
}

// Examines an open image, and prints the lines.
fn examine_image<R: AllocGlobal + Eprint, W: Write>(
    rt: &R,
    image: &mut Image,
    form: Form,
    out: &mut W,
) -> Result<Verdict, Status> {
    let (disk, file) = (&mut image.disk, &image.file);
    let examined = match form {
        Form::Json => examine(disk, file, &mut JsonExamination::new(rt.alloc(), out)),
        Form::People => examine(disk, file, &mut TextLines::new(out)),
    };
    examined.map_err(|error| stopped(rt, image.path, error))
}

// Replays the journal on a disk, and prints the lines.
fn replay_image<W: Write>(
    alloc: Global,
    disk: &mut ImageDisk,
    form: Form,
    out: &mut W,
) -> Result<Outcome, WalkError> {
    match form {
        Form::Json => replay(alloc, disk, &mut JsonLines::new(alloc, out)),
        Form::People => replay(alloc, disk, &mut TextLines::new(out)),
    }
}

/// Examines an image, and answers the status.
pub(crate) fn examined<R: Files<File = File> + AllocGlobal + Eprint, W: Write>(
    rt: &R,
    image: LabImage,
    is_watched: bool,
    form: Form,
    out: &mut W,
) -> Result<Status, Status> {
    let mut image = opened_whole(rt, image, is_watched)?;
    let verdict = examine_image(rt, &mut image, form, out)?;
    image.compare_digest(rt, is_watched)?;
    Ok(match verdict {
        Verdict::Whole => Status::Whole,
        Verdict::Refused => Status::Refused,
        Verdict::NotWhole => Status::Damaged,
    })
}

/// Replays the journal of an image, which is opened for reading alone, and answers the status.
pub(crate) fn replayed<R: Files<File = File> + AllocGlobal + Eprint, W: Write>(
    rt: &R,
    image: LabImage,
    form: Form,
    out: &mut W,
) -> Result<Status, Status> {
    let mut disk = opened(rt, image)?;
    match replay_image(rt.alloc(), &mut disk, form, out) {
        Ok(Outcome::Whole) => Ok(Status::Whole),
        Ok(Outcome::Differs) => Ok(Status::Damaged),
        Err(error) => Err(stopped(rt, image.path, error)),
    }
}

// The last line of a check, for people and as JSON.
fn last_line(verdict: Verdict, outcome: Option<Outcome>, form: Form) -> &'static str {
    let (people, json) = match (verdict, outcome) {
        (Verdict::Whole, Some(Outcome::Whole)) => (
            "the image is whole, and the kernel agrees with each event that is replayed\n",
            "{\"check\":{\"whole\":true,\"replay\":\"nothing_differs\"}}\n",
        ),
        (Verdict::Whole, Some(Outcome::Differs)) => (
            "the image is whole, but the kernel disagrees\n",
            "{\"check\":{\"whole\":true,\"replay\":\"differs_or_lost\"}}\n",
        ),
        (_, Some(Outcome::Whole)) => (
            "the image is not whole; the kernel agrees with each event that is replayed\n",
            "{\"check\":{\"whole\":false,\"replay\":\"nothing_differs\"}}\n",
        ),
        (_, Some(Outcome::Differs)) => (
            "the image is not whole; the kernel disagrees, or events are lost\n",
            "{\"check\":{\"whole\":false,\"replay\":\"differs_or_lost\"}}\n",
        ),
        (_, None) => (
            "the image is not whole; no event is replayed\n",
            "{\"check\":{\"whole\":false,\"replay\":null}}\n",
        ),
    };
    match form {
        Form::People => people,
        Form::Json => json,
    }
}

/// Examines an image and replays its journal, reports both in one line, and answers the status.
pub(crate) fn checked<R: Files<File = File> + AllocGlobal + Eprint, W: Write>(
    rt: &R,
    image: LabImage,
    is_watched: bool,
    form: Form,
    out: &mut W,
) -> Result<Status, Status> {
    let mut image = opened_whole(rt, image, is_watched)?;
    let verdict = examine_image(rt, &mut image, form, out)?;
    let outcome = match replay_image(rt.alloc(), &mut image.disk, form, out) {
        Ok(outcome) => Some(outcome),
        // The examination says which.
        Err(WalkError::NotFormatted | WalkError::Damaged) => None,
        Err(error) => return Err(stopped(rt, image.path, error)),
    };
    image.compare_digest(rt, is_watched)?;
    let line = last_line(verdict, outcome, form);
    reported(rt, image.path, out.write_all(line.as_bytes()))?;
    Ok(match (verdict, outcome) {
        (Verdict::Whole, Some(Outcome::Whole)) => Status::Whole,
        (Verdict::Refused, _) => Status::Refused,
        _ => Status::Damaged,
    })
}
