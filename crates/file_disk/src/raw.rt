//! The calls that a file has.
ghost use Rattle.std.specs.Prelude.{◌≡◌, ◌+◌, ◌/◌, ◌%◌, ◌<◌, ◌≤◌, length, take, drop, IsTrue, IfOk, OnOk, OnErr};
ghost use Rattle.disk.specs.State.{Touches, AreOpen, IsSynced, SameOpen};
ghost use Rattle.file_disk.specs.Files.{FileState, bytes_of, whole_disk, overwritten, resized, WritesOnly};

use disk::DiskFault;

/// A file by the calls that a system has for it (this project's profile). Sizes and offsets are bytes. A call may read
/// or write fewer bytes than it was handed, and that is no failure; 0 of a read is the end of the file.
///
/// Until a sync succeeds, every sector of 512 bytes that was written since the last one that succeeded is open, as on a
/// `Disk`. What a file is to do is promised of an honest one. Of every one it is promised that it stays honest or
/// dishonest, and that no call does more bytes than it was handed.
pub trait RawFile {
    /// What contracts see of it.
    ghost state: { Self → FileState };

    /// The number of its bytes, or DiskFault.
    fn length(&self) -> Result<u64, DiskFault>
        ensures { IsTrue (state self.now).honest → IfOk result (λ size. size ≡ length (bytes_of (state self.now))) };

    /// Cuts it off at this size, or lets it go on to it with zeros. At DiskFault it may hold any bytes.
    fn set_length(&mut self, size: u64) -> Result<(), DiskFault>
        ensures honest { (state self.new).honest ≡ (state self.old).honest }
        ensures resized { IsTrue (state self.old).honest → OnOk result (bytes_of (state self.new) ≡ resized (bytes_of (state self.old)) size) };

    /// Reads from an offset on, and answers how many bytes. Those after them may be any, and at DiskFault all.
    fn read_at(&self, offset: u64, bytes: &mut [u8]) -> Result<usize, DiskFault>
        ensures count { IfOk result (λ count. count ≤ length bytes.old) }
        ensures bytes { IsTrue (state self.now).honest →
            IfOk result (λ count. take count bytes.new ≡ take count (drop offset (bytes_of (state self.now)))) };

    /// Writes from an offset on, within the file, and answers how many bytes. They hold these bytes then, and the rest
    /// of the file stays as it is.
    fn write_at(&mut self, offset: u64, bytes: &[u8]) -> Result<usize, DiskFault>
        ensures honest { (state self.new).honest ≡ (state self.old).honest }
        ensures count { IfOk result (λ count. count ≤ length bytes.now) }
        ensures only { IsTrue (state self.old).honest → offset + length bytes.now ≤ length (bytes_of (state self.old)) →
            WritesOnly (offset / 512) (offset % 512 + length bytes.now) (state self.old) (state self.new) }
        ensures written { IsTrue (state self.old).honest → offset + length bytes.now ≤ length (bytes_of (state self.old)) →
            IfOk result (λ count. bytes_of (state self.new) ≡ overwritten (bytes_of (state self.old)) offset (take count bytes.now)) }
        ensures opened { IsTrue (state self.old).honest → offset + length bytes.now ≤ length (bytes_of (state self.old)) →
            IfOk result (λ count. 0 < count → AreOpen (whole_disk (state self.new)) (offset / 512) (offset % 512 + count)) };

    /// Settles all that was written: at Ok no sector is open. At DiskFault nothing was settled.
    fn sync(&mut self) -> Result<(), DiskFault>
        ensures honest { (state self.new).honest ≡ (state self.old).honest }
        ensures moments { IsTrue (state self.old).honest → Touches 0 0 (whole_disk (state self.old)) (whole_disk (state self.new)) }
        ensures bytes { IsTrue (state self.old).honest → bytes_of (state self.new) ≡ bytes_of (state self.old) }
        ensures synced { IsTrue (state self.old).honest → OnOk result (IsSynced (whole_disk (state self.new))) }
        ensures failed { IsTrue (state self.old).honest → OnErr result (SameOpen (whole_disk (state self.old)) (whole_disk (state self.new))) };
}
