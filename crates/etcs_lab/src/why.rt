//! The command `why`.

use crate::examined::stopped;
use crate::images::opened;
use crate::status::{Status, fail};
use command_line::LabImage;
use disk::Disk;
use image_lines::{JsonLines, TextLines};
use lab_why::{Options, WalkError, Walked, describe_why};
use std::alloc::Global;
use std::fs::File;
use std::io::Write;
use std::rt::Files;
use text_output::Form;

// Prints the lines for all events or one.
fn print_why<D: Disk, W: Write>(
    alloc: Global,
    disk: &mut D,
    options: Options,
    form: Form,
    out: &mut W,
) -> Result<Walked, WalkError> {
    match form {
        Form::Json => describe_why(alloc, disk, options, &mut JsonLines::new(alloc, out)),
        Form::People => describe_why(alloc, disk, options, &mut TextLines::new(out)),
    }
}

/// Reports why the brakes were commanded in an image, which is opened for reading alone, and answers the status.
pub(crate) fn why_reported<R: Files<File = File> + AllocGlobal + Eprint, W: Write>(
    rt: &R,
    image: LabImage,
    options: Options,
    form: Form,
    out: &mut W,
) -> Result<Status, Status> {
    let mut disk = opened(rt, image)?;
    match print_why(rt.alloc(), &mut disk, options, form, out) {
        Ok(walked) if options.only.is_some() && walked.events == 0 => Err(fail(
            rt,
            "has no such event in a life that can be replayed",
            image.path,
            Status::Damaged,
        )),
        Ok(walked) if options.only.is_none() && !walked.is_whole => Ok(Status::Damaged),
        Ok(_) => Ok(Status::Whole),
        Err(error) => Err(stopped(rt, image.path, error)),
    }
}
