//! The image that a command reads.

use crate::digest::{facts_of, has_digest};
use crate::given::GivenFile;
use crate::progress::Progress;
use crate::status::{Status, fail, unread};
use command_line::LabImage;
use file_disk::{FileDisk, ReadError, ReadOnlyFile};
use image_lines::FileFacts;
use std::fs::File;
use std::rt::Files;

/// The disk of an image.
pub(crate) type ImageDisk = FileDisk<GivenFile>;

// The message about a file that another program changes while it is examined.
const CHANGED: &str = "changed while it was being read; the result is not of one image";

// What is said of a file that can't be opened.
fn sentence(error: ReadError) -> &'static str {
    match error {
        ReadError::Missing => "there is no such file",
        ReadError::Denied => "permission denied",
        ReadError::Folder => "is a folder",
        ReadError::Stream => "is a FIFO, a socket or a character device, not an image",
        ReadError::Locked => "another program is writing it",
        ReadError::Failed => "can't be opened",
    }
}

// Opens the file of an image for reading alone; else says why not.
fn file_of<R: Files<File = File> + Eprint>(rt: &R, path: &str) -> Result<ReadOnlyFile, Status> {
    ReadOnlyFile::open(rt, path).map_err(|error| fail(rt, sentence(error), path, Status::Device))
}

// The disk over a file; else says that it can't be read.
fn disk_over<R: Eprint>(rt: &R, file: ReadOnlyFile, image: LabImage) -> Result<ImageDisk, Status> {
    FileDisk::over(GivenFile::over(file, image.slots)).map_err(|_| unread(rt, image.path))
}

/// Opens an image for reading alone; else says why not.
pub(crate) fn opened<R: Files<File = File> + Eprint>(
    rt: &R,
    image: LabImage,
) -> Result<ImageDisk, Status> {
    disk_over(rt, file_of(rt, image.path)?, image)
}

/// An open image, with what is reported of its file as a whole.
#[derive(Drop)]
pub(crate) struct Image<'a> {
    /// The file.
    pub(crate) path: &'a str,
    /// What is reported of it.
    pub(crate) file: FileFacts,
    /// The disk over it.
    pub(crate) disk: ImageDisk,
}

/// Opens an image for reading alone, and takes the size and the digest of the same open file; else says why not. Where it
/// isn't formatted, it says so too. Where somebody watches it shows how far it is.
pub(crate) fn opened_whole<'a, R: Files<File = File> + Eprint>(
    rt: &R,
    image: LabImage<'a>,
    is_watched: bool,
) -> Result<Image<'a>, Status> {
    let open = file_of(rt, image.path)?;
    let Ok(file) = facts_of(rt, &open, image, is_watched) else {
        return Err(unread(rt, image.path));
    };
    let disk = disk_over(rt, open, image)?;
    Ok(Image {
        path: image.path,
        file,
        disk,
    })
}

impl Image<'_> {
    /// Reads the whole file once more after an examination: an error where its bytes are no longer those of the printed
    /// digest, so that what was examined may have been other bytes. A file without a digest isn't read.
    pub(crate) fn compare_digest<R: Eprint>(&self, rt: &R, is_watched: bool) -> Result<(), Status> {
        let Some(digest) = &self.file.digest else {
            return Ok(());
        };
        let progress = Progress::of(self.file.bytes, is_watched);
        match has_digest(rt, &self.disk.file().file, digest, progress) {
            Ok(true) => Ok(()),
            Ok(false) => Err(fail(rt, CHANGED, self.path, Status::Device)),
            Err(_) => Err(unread(rt, self.path)),
        }
    }
}
