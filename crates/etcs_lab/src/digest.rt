//! The size of a file, its first sector and its SHA-256.

use crate::progress::Progress;
use crate::status::unformatted;
use blocks::read_first_sector;
use command_line::LabImage;
use disk::DiskFault;
use file_disk::{RawFile, read_all};
use image_lines::FileFacts;
use lab_play::digits_of;
use sha2::{Digest, Sha256};

// The bytes of an image of the most slots, and of a part of a sector after them.
const MOST_BYTES: u64 = 512 * (1 + 6 * 1_048_576) + 511;

// The first 512 bytes of a file; None where it has fewer.
fn first_of<F: RawFile>(file: &F) -> Result<Option<[u8; 512]>, DiskFault> {
    if file.length()? < 512 {
        return Ok(None);
    }
    let mut sector = [0u8; 512];
    read_all(file, 0, &mut sector)?;
    Ok(Some(sector))
}

// Whether a file that begins so can be read as an image.
fn is_readable(first: &Option<[u8; 512]>, image: LabImage) -> bool {
    match first {
        Some(sector) => image.slots.is_some() || read_first_sector(sector).is_some(),
        None => false,
    }
}

// How many bytes a file gives up to its end, and their digest; and shows how far it is.
fn taken<R: Eprint, F: RawFile>(
    rt: &R,
    file: &F,
    mut progress: Progress,
) -> Result<(u64, [u8; 64]), DiskFault> {
    let mut hasher = Sha256::new();
    let mut buffer = [0u8; 16_384];
    let mut bytes = 0u64;
    for _ in 0..u64::MAX {
        let count = file.read_at(bytes, &mut buffer)?;
        if count == 0 {
            break;
        }
        hasher.update(&buffer[..count]);
        bytes = bytes.saturating_add(count as u64);
        progress.describe(rt, bytes);
    }
    progress.end(rt);
    Ok((bytes, digits_of(&hasher.finalize())))
}

/// What is reported of a file as a whole. That it isn't formatted, where no number of slots is given, is said before all of
/// it is read; and of such a file that has more bytes than any image no digest is taken. The error is that of a read, or of
/// a file that gives more or fewer bytes than it has: a digest of those would be of another file.
pub(crate) fn facts_of<R: Eprint, F: RawFile>(
    rt: &R,
    file: &F,
    image: LabImage,
    is_watched: bool,
) -> Result<FileFacts, DiskFault> {
    let first = first_of(file)?;
    let is_formatted = is_readable(&first, image);
    if !is_formatted {
        unformatted(rt, image.path);
    }
    let length = file.length()?;
    if !is_formatted && length > MOST_BYTES {
        return Ok(FileFacts {
            bytes: length,
            digest: None,
            first,
        });
    }
    let (bytes, digest) = taken(rt, file, Progress::of(length, is_watched))?;
    if bytes != length {
        return Err(DiskFault);
    }
    Ok(FileFacts {
        bytes,
        digest: Some(digest),
        first,
    })
}

/// Whether the bytes of a file, read to its end, have this digest. The error is that of a read.
pub(crate) fn has_digest<R: Eprint, F: RawFile>(
    rt: &R,
    file: &F,
    digest: &[u8; 64],
    progress: Progress,
) -> Result<bool, DiskFault> {
    let (_, found) = taken(rt, file, progress)?;
    Ok(found == *digest)
}
