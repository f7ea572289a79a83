//! A disk over a file.
ghost use Rattle.std.specs.Prelude.{◌≡◌, ◌+◌, ◌*◌, ◌/◌, ◌%◌, ◌^◌, ◌<◌, ◌≤◌, length, IsTrue, IsErr, IfOk, is_err, if◌then◌else◌};
ghost use Rattle.disk.specs.State.{contents_of, IsSynced, HoldsZeros};
ghost use Rattle.file_disk.specs.Files.{bytes_of, disk_over, whole_disk};

use crate::readonly::opened_to_read;
use crate::syncing::sync_folder;
use crate::whole::{read_all, write_all, write_zeros};
use crate::{RawFile, ReadOnlyFile};
use disk::{Disk, DiskFault, SECTOR_BYTES, WriteDisk};
use std::fs::{File, OpenOptions};
use std::io::ErrorKind;
use std::os::unix::fs::FileTypeExt;
use std::rt::Files;

// A file has fewer than 2^63 bytes.
const MOST_SECTORS: u64 = (1 << 54) - 1;

/// A disk over the whole sectors of a file, 512 bytes each (this project's profile). Bytes after the last of them are
/// left alone.
///
/// Of a file of the operating system only safety, the number of sectors and the count of faults are promised, since no
/// call shows what it keeps. Over an honest file the disk is honest.
#[derive(Drop)]
pub struct FileDisk<F: RawFile = File> {
    file: F,
    sectors: u64,
    faults: u64,
    ghost few: { sectors < 2 ^ 55 },
    ghost sized: { IsTrue (F.state file).honest → 512 * sectors ≤ length (bytes_of (F.state file)) },
}

impl FileDisk {
    /// Makes the file, or empties the one that is there, and fills it with so many sectors of zeros; a block device of
    /// just so many sectors stays as it is. The zeros are written, so that no later write lacks space on the device. The
    /// folder is synced too, so that the name of a new file survives a loss of power.
    ///
    /// The file is locked for this handle alone before it is touched, until the disk is dropped. DiskFault where it
    /// can't be made or locked, where another handle holds a lock on it, where the device has no space for it, where its
    /// folder can't be synced, and before it is touched where no file has so many bytes.
    pub fn create<R: Files<File = File> + AllocGlobal>(
        rt: &R,
        path: &str,
        sectors: u64,
    ) -> Result<FileDisk, DiskFault>
        ensures sectors { IfOk result (λ disk. (⟦<FileDisk<File> as WriteDisk>⟧.state disk).sectors ≡ sectors) }
        ensures faults { IfOk result (λ disk. (⟦<FileDisk<File> as WriteDisk>⟧.state disk).faults ≡ 0) }
        ensures too_many { 2 ^ 54 ≤ sectors → IsErr result }
    {
        if sectors > MOST_SECTORS {
            return Err(DiskFault);
        }
        let mut options = OpenOptions::new();
        options.read(true).write(true).create(true);
        let file = options.open(rt, path).map_err(|_| DiskFault)?;
        locked(&file)?;
        if is_device(&file)? {
            return FileDisk::of_size(file, sectors);
        }
        let disk = FileDisk::fill(file, sectors)?;
        sync_folder(rt, path)?;
        Ok(disk)
    }

    /// Opens the file to read and to write; its sectors are its whole 512-byte parts. A file that may only be read
    /// opens too, and answers DiskFault to each write.
    ///
    /// The file is locked for this handle alone until the disk is dropped. DiskFault where it can't be opened or
    /// locked, and where another handle holds a lock on it. After a sync that failed in an earlier process the system
    /// may read what isn't on the medium: then its copies of the file's pages have to be dropped first, for which there
    /// is no call here.
    pub fn open<R: Files<File = File>>(rt: &R, path: &str) -> Result<FileDisk, DiskFault>
        ensures faults { IfOk result (λ disk. (⟦<FileDisk<File> as WriteDisk>⟧.state disk).faults ≡ 0) }
    {
        let file = open_file(rt, path)?;
        locked(&file)?;
        FileDisk::over(file)
    }
}

impl FileDisk<ReadOnlyFile> {
    /// Opens the file for reading alone; its sectors are its whole 512-byte parts. The disk answers DiskFault to each
    /// write, and nothing that is called of it writes to the file.
    ///
    /// The file is locked for handles that read until the disk is dropped. DiskFault where `ReadOnlyFile::open` answers
    /// an error.
    pub fn open_to_read<R: Files<File = File>>(
        rt: &R,
        path: &str,
    ) -> Result<FileDisk<ReadOnlyFile>, DiskFault>
        ensures faults { IfOk result (λ disk. (⟦<FileDisk<ReadOnlyFile> as WriteDisk>⟧.state disk).faults ≡ 0) }
    {
        match ReadOnlyFile::open(rt, path) {
            Ok(file) => FileDisk::over(file),
            Err(_) => Err(DiskFault),
        }
    }
}

// Opens a file to read and to write, and where that is not allowed, to read.
fn open_file<R: Files<File = File>>(rt: &R, path: &str) -> Result<File, DiskFault> {
    let mut options = OpenOptions::new();
    options.read(true).write(true);
    let error = match options.open(rt, path) {
        Ok(file) => return Ok(file),
        Err(error) => error,
    };
    match error.kind() {
        ErrorKind::PermissionDenied | ErrorKind::ReadOnlyFilesystem => {
            opened_to_read(rt, path).map_err(|_| DiskFault)
        }
        _ => Err(DiskFault),
    }
}

// Locks a file for its handle alone.
fn locked(file: &File) -> Result<(), DiskFault> {
    file.try_lock().map_err(|_| DiskFault)
}

// Whether a file is a block device, whose size is its own.
fn is_device(file: &File) -> Result<bool, DiskFault> {
    match file.metadata() {
        Ok(metadata) => Ok(metadata.file_type().is_block_device()),
        Err(_) => Err(DiskFault),
    }
}

impl<F: RawFile + Drop> FileDisk<F> {
    /// A disk over the whole sectors of a file, with no fault counted. DiskFault where its length can't be read.
    pub fn over(file: F) -> Result<FileDisk<F>, DiskFault>
        ensures faults { IfOk result (λ disk. (⟦<FileDisk<F> as WriteDisk>⟧.state disk).faults ≡ 0) }
        ensures honest { IfOk result (λ disk. (⟦<FileDisk<F> as WriteDisk>⟧.state disk).honest ≡ (F.state file).honest) }
        ensures whole { IsTrue (F.state file).honest → IfOk result (λ disk. ⟦<FileDisk<F> as WriteDisk>⟧.state disk ≡ whole_disk (F.state file)) }
    {
        let sectors = file.length()? / SECTOR_BYTES as u64;
        Ok(FileDisk {
            file,
            sectors,
            faults: 0,
        })
    }

    // A disk over a file that has just so many sectors, and else DiskFault.
    fn of_size(file: F, sectors: u64) -> Result<FileDisk<F>, DiskFault>
        ensures sectors { IfOk result (λ disk. (⟦<FileDisk<F> as WriteDisk>⟧.state disk).sectors ≡ sectors) }
        ensures faults { IfOk result (λ disk. (⟦<FileDisk<F> as WriteDisk>⟧.state disk).faults ≡ 0) }
    {
        let disk = FileDisk::over(file)?;
        if disk.sectors != sectors {
            return Err(DiskFault);
        }
        Ok(disk)
    }

    /// Empties a file, fills it with so many sectors of zeros, and syncs it. DiskFault where one of these fails: then
    /// the file may hold any bytes. The caller owes fewer than 2^54 sectors.
    pub fn fill(file: F, sectors: u64) -> Result<FileDisk<F>, DiskFault>
        requires { sectors < 2 ^ 54 }
        ensures sectors { IfOk result (λ disk. (⟦<FileDisk<F> as WriteDisk>⟧.state disk).sectors ≡ sectors) }
        ensures faults { IfOk result (λ disk. (⟦<FileDisk<F> as WriteDisk>⟧.state disk).faults ≡ 0) }
        ensures honest { IfOk result (λ disk. (⟦<FileDisk<F> as WriteDisk>⟧.state disk).honest ≡ (F.state file).honest) }
        ensures zeros { IsTrue (F.state file).honest → IfOk result (λ disk. HoldsZeros sectors (contents_of (⟦<FileDisk<F> as WriteDisk>⟧.state disk))) }
        ensures synced { IsTrue (F.state file).honest → IfOk result (λ disk. IsSynced (⟦<FileDisk<F> as WriteDisk>⟧.state disk)) }
    {
        let mut file = file;
        file.set_length(0)?;
        file.set_length(sectors * SECTOR_BYTES as u64)?;
        write_zeros(&mut file, sectors)?;
        file.sync()?;
        Ok(FileDisk {
            file,
            sectors,
            faults: 0,
        })
    }
}

impl<F: RawFile> FileDisk<F> {
    /// The file that the disk reads and writes.
    pub fn file(&self) -> &F
        ensures { ⟦<FileDisk<F> as WriteDisk>⟧.state self.now ≡ disk_over (⟦<FileDisk<F> as WriteDisk>⟧.state self.now).sectors (⟦<FileDisk<F> as WriteDisk>⟧.state self.now).faults (F.state result.now) }
    {
        &self.file
    }

    // Hands an answer on, and counts its fault.
    fn counted(&mut self, answer: Result<(), DiskFault>) -> Result<(), DiskFault>
        ensures answer { result ≡ answer }
        ensures faults { self.new.faults ≡ (if is_err answer then (self.old.faults + 1) % 2 ^ 64 else self.old.faults) }
        ensures file { self.new.file ≡ self.old.file }
        ensures sectors { self.new.sectors ≡ self.old.sectors }
    {
        if answer.is_err() {
            self.faults = self.faults.wrapping_add(1);
        }
        answer
    }
}

impl<F: RawFile> WriteDisk for FileDisk<F> {
    ghost state = { λ disk. disk_over disk.sectors disk.faults (F.state disk.file) };

    ghost reserve = { λ _. 0 };

    fn sectors(&self) -> u64 {
        self.sectors
    }

    fn write(&mut self, first: u64, bytes: &[u8]) -> Result<(), DiskFault> {
        let answer = write_all(&mut self.file, first, bytes);
        self.counted(answer)
    }

    fn sync(&mut self) -> Result<(), DiskFault> {
        let answer = self.file.sync();
        self.counted(answer)
    }
}

impl<F: RawFile> Disk for FileDisk<F> {
    fn read(&mut self, first: u64, bytes: &mut [u8]) -> Result<(), DiskFault> {
        let answer = read_all(&self.file, first, bytes);
        self.counted(answer)
    }
}
