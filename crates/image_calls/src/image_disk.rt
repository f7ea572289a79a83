//! The bytes of an image, as a disk that can't be written.
ghost use Rattle.std.specs.Prelude.{◌≡◌, ◌+◌, ◌%◌, ◌^◌, Some, None, unwrap_or};
ghost use Rattle.image_calls.specs.ImageDisk.{Imaged, faults_of};

use disk::{Disk, DiskFault, SECTOR_BYTES, WriteDisk};
use std::marker::Model;

/// A disk over bytes that are lent, which can't be written (this project's profile): a write answers DiskFault, and
/// changes no byte. Bytes after the last whole sector are left out.
#[derive(Drop)]
pub(crate) struct ImageDisk<'a> {
    bytes: &'a [u8],
    // The first sector of the first write that was refused.
    refused: Option<u64>,
    // How many calls were refused.
    faults: u64,
}

impl<'a> Model for ImageDisk<'a> {
    ghost use Rattle.image_calls.specs.ImageDisk.{Imaged};

    ghost Value = { Imaged };

    ghost view = { λ d. record { bytes = d.bytes.now; refused = d.refused; faults = d.faults } };
}

impl<'a> ImageDisk<'a> {
    /// A disk of these bytes.
    pub(crate) fn of(bytes: &'a [u8]) -> Self
        ensures { result ≡ record { bytes = bytes.now; refused = None; faults = 0 } }
    {
        ImageDisk {
            bytes,
            refused: None,
            faults: 0,
        }
    }

    // Refuses a call, and notes this sector where it is the first one.
    fn refuse(&mut self, sector: u64) -> DiskFault
        ensures { self.new ≡ record self.old {
          refused = Some (unwrap_or self.old.refused sector);
          faults = (faults_of self.old.refused self.old.faults + 1) % 2 ^ 64;
        } }
    {
        let before = match self.refused {
            None => 0,
            Some(_) => self.faults,
        };
        self.faults = before.wrapping_add(1);
        self.refused = Some(self.refused.unwrap_or(sector));
        DiskFault
    }
}

impl<'a> WriteDisk for ImageDisk<'a> {
    ghost use Rattle.image_calls.specs.ImageDisk.{imaged_state};

    ghost state = { imaged_state };

    ghost reserve = { λ _. 0 };

    fn sectors(&self) -> u64 {
        (self.bytes.len() / SECTOR_BYTES) as u64
    }

    fn write(&mut self, first: u64, _bytes: &[u8]) -> Result<(), DiskFault> {
        Err(self.refuse(first))
    }

    fn sync(&mut self) -> Result<(), DiskFault> {
        match self.refused {
            None => Ok(()),
            Some(sector) => Err(self.refuse(sector)),
        }
    }
}

impl<'a> Disk for ImageDisk<'a> {
    fn read(&mut self, first: u64, bytes: &mut [u8]) -> Result<(), DiskFault> {
        // That a place in the bytes fits its type.
        let _len = self.bytes.len();
        let from = SECTOR_BYTES * first as usize;
        bytes.copy_from_slice(&self.bytes[from..from + bytes.len()]);
        Ok(())
    }
}
