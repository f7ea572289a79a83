//! A file of the operating system.
ghost use Rattle.file_disk.specs.SystemFile.{system_state};

use crate::RawFile;
use disk::DiskFault;
use std::fs::File;
use std::io::{ErrorKind, Seek, SeekFrom};
use std::os::unix::fs::FileExt;

impl RawFile for File {
    ghost state = { system_state };

    fn length(&self) -> Result<u64, DiskFault> {
        // The end that a seek finds, since the system says no length of a device. Reads and writes are at offsets of
        // their own.
        let mut handle = self;
        match handle.seek(SeekFrom::End(0)) {
            Ok(end) => Ok(end),
            Err(_) => Err(DiskFault),
        }
    }

    fn set_length(&mut self, size: u64) -> Result<(), DiskFault> {
        self.set_len(size).map_err(|_| DiskFault)
    }

    fn read_at(&self, offset: u64, bytes: &mut [u8]) -> Result<usize, DiskFault> {
        // Again where a signal comes between.
        for _ in 0..u64::MAX {
            match FileExt::read_at(self, bytes, offset) {
                Ok(count) => return Ok(count),
                Err(error) if error.kind() == ErrorKind::Interrupted => {}
                Err(_) => return Err(DiskFault),
            }
        }
        Err(DiskFault)
    }

    fn write_at(&mut self, offset: u64, bytes: &[u8]) -> Result<usize, DiskFault> {
        // Again where a signal comes between.
        for _ in 0..u64::MAX {
            match FileExt::write_at(self, bytes, offset) {
                Ok(count) => return Ok(count),
                Err(error) if error.kind() == ErrorKind::Interrupted => {}
                Err(_) => return Err(DiskFault),
            }
        }
        Err(DiskFault)
    }

    fn sync(&mut self) -> Result<(), DiskFault> {
        self.sync_all().map_err(|_| DiskFault)
    }
}
