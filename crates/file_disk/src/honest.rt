//! An honest file in memory.
ghost use Rattle.std.specs.Prelude.{◌≡◌, ◌-◌, ◌<◌, [], ◌∷◌, ◌++◌, length, vec_len, IfOk, OnOk, OnErr, Some, slice_get};
ghost use Rattle.file_disk.specs.Files.{bytes_of};

use crate::RawFile;
use crate::moment::Moment;
use disk::DiskFault;
use std::alloc::{AllocError, Global};

/// A file in memory that keeps each of its moments. A call reads or writes so many bytes at most.
#[derive(Drop)]
pub struct HonestFile {
    alloc: Global,
    moments: Vec<Moment>,
    most: usize,
    ghost some: { 0 < vec_len moments },
}

impl HonestFile {
    ghost use Rattle.file_disk.specs.Honest.{honest_state};

    /// An empty file, whose calls read or write so many bytes at most.
    pub fn new(alloc: Global, most: usize) -> Result<HonestFile, AllocError>
        ensures { IfOk result (λ file. bytes_of (honest_state file) ≡ []) }
    {
        let mut moments = Vec::new(alloc);
        moments.push(Moment::empty(alloc))?;
        Ok(HonestFile {
            alloc,
            moments,
            most,
        })
    }

    /// Whether one of the bytes that were written since the last sync is in a sector.
    pub fn is_open(&self, sector: u64) -> bool {
        let first = sector.saturating_mul(512);
        let end = first.saturating_add(512);
        self.now().parts.iter().any(|part| {
            let offset = part.offset as u64;
            offset < end && first < offset.saturating_add(part.count as u64)
        })
    }

    // The file now.
    fn now(&self) -> &Moment
        ensures { slice_get self.now.moments.items (length self.now.moments.items - 1) ≡ Some result.now }
    {
        &self.moments[self.moments.len() - 1]
    }

    // Goes on to a moment.
    fn go_on(&mut self, next: Moment) -> Result<(), DiskFault>
        ensures ok { OnOk result (self.new.moments.items ≡ self.old.moments.items ++ next ∷ []) }
        ensures err { OnErr result (self.new.moments.items ≡ self.old.moments.items) }
    {
        match self.moments.push(next) {
            Ok(()) => Ok(()),
            Err(_) => Err(DiskFault),
        }
    }
}

impl RawFile for HonestFile {
    ghost use Rattle.file_disk.specs.Honest.{honest_state};

    ghost state = { honest_state };

    fn length(&self) -> Result<u64, DiskFault> {
        Ok(self.now().bytes.len() as u64)
    }

    fn set_length(&mut self, size: u64) -> Result<(), DiskFault> {
        let Ok(next) = self.now().resized(self.alloc, size as usize) else {
            return Err(DiskFault);
        };
        self.go_on(next)?;
        Ok(())
    }

    fn read_at(&self, offset: u64, bytes: &mut [u8]) -> Result<usize, DiskFault> {
        let file = &self.now().bytes;
        let offset = file.len().min(offset as usize);
        let count = bytes.len().min(self.most).min(file.len() - offset);
        bytes[..count].copy_from_slice(&file[offset..offset + count]);
        Ok(count)
    }

    fn write_at(&mut self, offset: u64, bytes: &[u8]) -> Result<usize, DiskFault> {
        let offset = offset as usize;
        let count = bytes.len().min(self.most);
        let file = self.now();
        if offset > file.bytes.len() || count > file.bytes.len() - offset {
            return Err(DiskFault);
        }
        let Ok(next) = file.written(self.alloc, offset, &bytes[..count]) else {
            return Err(DiskFault);
        };
        self.go_on(next)?;
        Ok(count)
    }

    fn sync(&mut self) -> Result<(), DiskFault> {
        let Ok(next) = self.now().synced(self.alloc) else {
            return Err(DiskFault);
        };
        self.go_on(next)?;
        Ok(())
    }
}
