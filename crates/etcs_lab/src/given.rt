//! A file that is read as an image of a given number of slots, whatever its first sector holds (this project's profile).

use blocks::write_first_sector;
use disk::{DiskFault, SECTOR_BYTES};
use file_disk::{RawFile, ReadOnlyFile};

/// A file for reading alone. Where a number of slots is given, its first sector reads as the one that is written for so
/// many; all else reads as it is.
#[derive(Drop)]
pub(crate) struct GivenFile {
    /// The file as it is.
    pub(crate) file: ReadOnlyFile,
    // What the first sector reads as, where that isn't what it holds.
    first: Option<[u8; SECTOR_BYTES]>,
}

impl GivenFile {
    /// A file that is read as an image of so many slots, or as it is where none is given, or so many that no image has.
    pub(crate) fn over(file: ReadOnlyFile, slots: Option<u32>) -> GivenFile {
        let first = match slots {
            Some(slots) if 2 <= slots && slots <= 1_048_576 => {
                let mut first = [0; SECTOR_BYTES];
                write_first_sector(slots, &mut first);
                Some(first)
            }
            _ => None,
        };
        GivenFile { file, first }
    }
}

impl RawFile for GivenFile {
    ghost use Rattle.file_disk.specs.SystemFile.{read_only_state};

    ghost state = { λ given. read_only_state given.file };

    fn length(&self) -> Result<u64, DiskFault> {
        self.file.length()
    }

    fn set_length(&mut self, _size: u64) -> Result<(), DiskFault> {
        Err(DiskFault)
    }

    fn read_at(&self, offset: u64, bytes: &mut [u8]) -> Result<usize, DiskFault> {
        let count = self.file.read_at(offset, bytes)?;
        if let Some(first) = &self.first {
            let from = offset.min(SECTOR_BYTES as u64) as usize;
            for (byte, given) in bytes.iter_mut().zip(&first[from..]) {
                *byte = *given;
            }
        }
        Ok(count)
    }

    fn write_at(&mut self, _offset: u64, _bytes: &[u8]) -> Result<usize, DiskFault> {
        Err(DiskFault)
    }

    fn sync(&mut self) -> Result<(), DiskFault> {
        self.file.sync()
    }
}
