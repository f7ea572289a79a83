//! A file of the operating system that is only read.
ghost use Rattle.file_disk.specs.SystemFile.{read_only_state};

use crate::RawFile;
use crate::syncing::sync_what_waits;
use disk::DiskFault;
use std::fs::{File, FileType, TryLockError};
use std::io::ErrorKind;
use std::os::unix::fs::FileTypeExt;
use std::rt::Files;
use std::{fs, io};

/// Why a file can't be opened to be read.
#[derive(Clone, Copy)]
pub enum ReadError {
    /// There is none.
    Missing,
    /// The system doesn't allow it.
    Denied,
    /// It is a folder.
    Folder,
    /// It is a FIFO, a socket or a character device, which has no bytes at a place.
    Stream,
    /// Another handle holds the lock to write.
    Locked,
    /// The system failed.
    Failed,
}

impl From<io::Error> for ReadError {
    fn from(error: io::Error) -> ReadError {
        match error.kind() {
            ErrorKind::NotFound | ErrorKind::NotADirectory => ReadError::Missing,
            ErrorKind::PermissionDenied => ReadError::Denied,
            _ => ReadError::Failed,
        }
    }
}

impl From<TryLockError> for ReadError {
    fn from(error: TryLockError) -> ReadError {
        match error {
            TryLockError::WouldBlock => ReadError::Locked,
            TryLockError::Error(_) => ReadError::Failed,
        }
    }
}

// Whether what has this type has bytes at a place: a file or a block device.
fn has_bytes(kind: FileType) -> Result<(), ReadError> {
    if kind.is_dir() {
        return Err(ReadError::Folder);
    }
    if kind.is_file() || kind.is_block_device() {
        return Ok(());
    }
    Err(ReadError::Stream)
}

/// Opens a file to be read, and not yet locked. Its type is looked at before: to open a FIFO would wait for who writes
/// it. It is looked at again after the opening, since another file may have come under the name.
pub(crate) fn opened_to_read<R: Files<File = File>>(rt: &R, path: &str) -> Result<File, ReadError> {
    has_bytes(fs::metadata(rt, path)?.file_type())?;
    let file = File::open(rt, path)?;
    has_bytes(file.metadata()?.file_type())?;
    Ok(file)
}

/// A file of the operating system that was opened for reading alone, and is locked for handles that read. What would
/// change it is DiskFault, and doesn't reach the system.
#[derive(Drop)]
pub struct ReadOnlyFile {
    file: File,
}

impl ReadOnlyFile {
    /// Opens a file, and locks it for handles that read, until it is dropped. What the path names has to be a file or a
    /// block device.
    pub fn open<R: Files<File = File>>(rt: &R, path: &str) -> Result<ReadOnlyFile, ReadError> {
        let file = opened_to_read(rt, path)?;
        file.try_lock_shared()?;
        Ok(ReadOnlyFile { file })
    }
}

impl RawFile for ReadOnlyFile {
    ghost state = { read_only_state };

    fn length(&self) -> Result<u64, DiskFault> {
        self.file.length()
    }

    fn set_length(&mut self, _size: u64) -> Result<(), DiskFault> {
        Err(DiskFault)
    }

    fn read_at(&self, offset: u64, bytes: &mut [u8]) -> Result<usize, DiskFault> {
        RawFile::read_at(&self.file, offset, bytes)
    }

    fn write_at(&mut self, _offset: u64, _bytes: &[u8]) -> Result<usize, DiskFault> {
        Err(DiskFault)
    }

    // What others wrote before is settled.
    fn sync(&mut self) -> Result<(), DiskFault> {
        sync_what_waits(&self.file)
    }
}
