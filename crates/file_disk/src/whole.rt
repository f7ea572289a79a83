//! Calls on whole sectors of a file.
ghost use Rattle.std.specs.Prelude.{◌≡◌, ◌+◌, ◌*◌, ◌^◌, ◌<◌, ◌≤◌, length, take, drop, replicate, IsTrue, OnOk};
ghost use Rattle.disk.specs.State.{AreOpen};
ghost use Rattle.file_disk.specs.Files.{bytes_of, whole_disk, overwritten, WritesOnly};

use crate::RawFile;
use disk::{DiskFault, SECTOR_BYTES};

// How many sectors of zeros one call writes at most.
const SECTORS_A_CALL: u64 = 16;

/// Reads from a sector on until all bytes are read. DiskFault where a read fails, or the file ends before. The caller
/// owes an end below 2^64 bytes.
pub fn read_all<F: RawFile>(file: &F, first: u64, bytes: &mut [u8]) -> Result<(), DiskFault>
    requires { 512 * first + length bytes.old < 2 ^ 64 }
    ensures { IsTrue (F.state file.now).honest →
        OnOk result (bytes.new ≡ take (length bytes.old) (drop (512 * first) (bytes_of (F.state file.now)))) }
{
    let offset = first * SECTOR_BYTES as u64;
    let mut done: usize = 0;
    while done < bytes.len() {
        let count = file.read_at(offset + done as u64, &mut bytes[done..])?;
        if count == 0 {
            return Err(DiskFault);
        }
        done += count;
    }
    Ok(())
}

/// Writes from a sector on until all bytes are written. It stops at the first DiskFault. The caller owes an end below
/// 2^64 bytes.
pub fn write_all<F: RawFile>(file: &mut F, first: u64, bytes: &[u8]) -> Result<(), DiskFault>
    requires { 512 * first + length bytes.now < 2 ^ 64 }
    ensures honest { (F.state file.new).honest ≡ (F.state file.old).honest }
    ensures only { IsTrue (F.state file.old).honest → 512 * first + length bytes.now ≤ length (bytes_of (F.state file.old)) →
        WritesOnly first (length bytes.now) (F.state file.old) (F.state file.new) }
    ensures written { IsTrue (F.state file.old).honest → 512 * first + length bytes.now ≤ length (bytes_of (F.state file.old)) →
        OnOk result (bytes_of (F.state file.new) ≡ overwritten (bytes_of (F.state file.old)) (512 * first) bytes.now) }
    ensures opened { IsTrue (F.state file.old).honest → 512 * first + length bytes.now ≤ length (bytes_of (F.state file.old)) →
        OnOk result (AreOpen (whole_disk (F.state file.new)) first (length bytes.now)) }
{
    let offset = first * SECTOR_BYTES as u64;
    let mut done: usize = 0;
    while done < bytes.len() {
        let count = file.write_at(offset + done as u64, &bytes[done..])?;
        if count == 0 {
            return Err(DiskFault); // It takes no more.
        }
        done += count;
    }
    Ok(())
}

/// Writes zeros over so many sectors, from the first one on, so that the file system has space for them. It stops at the
/// first DiskFault. The caller owes fewer than 2^54 sectors.
pub(crate) fn write_zeros<F: RawFile>(file: &mut F, sectors: u64) -> Result<(), DiskFault>
    requires { sectors < 2 ^ 54 }
    ensures honest { (F.state file.new).honest ≡ (F.state file.old).honest }
    ensures zeros { IsTrue (F.state file.old).honest → bytes_of (F.state file.old) ≡ replicate (512 * sectors) 0 →
        OnOk result (bytes_of (F.state file.new) ≡ replicate (512 * sectors) 0) }
{
    let zeros = [0; SECTORS_A_CALL as usize * SECTOR_BYTES];
    let mut done: u64 = 0;
    while done < sectors {
        let count = (sectors - done).min(SECTORS_A_CALL);
        write_all(file, done, &zeros[..count as usize * SECTOR_BYTES])?;
        done += count;
    }
    Ok(())
}
