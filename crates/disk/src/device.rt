//! A device of sectors.
ghost use Rattle.std.specs.Prelude.{◌≡◌, ◌↔◌, ◌/◌, ℕ, length, IsTrue, OnOk, OnErr, is_err};
ghost use Rattle.disk.specs.State.{State, contents_of, AreSectors, Counted, Touches, Holds, AreOpen, OpenOrSame, SameOpenOutside, SameOpen, IsSynced};
ghost use Rattle.disk.specs.Reserve.{Spends};

use crate::{DiskFault, SECTOR_BYTES};

/// A device of sectors of 512 bytes that is written and synced, and may lose power at any moment (this project's
/// profile). Sectors are numbered from 0. What puts a block on a disk needs no more of it.
///
/// Until a sync succeeds, every sector written since the last one that succeeded is open: after a cut it may hold
/// any bytes. All other sectors keep theirs. What a disk is to do is promised of an honest one; that its number of
/// sectors stays, that it stays honest or dishonest, and that its faults are counted, of every one.
pub trait WriteDisk {
    /// What contracts see of it.
    ghost state: { Self → State };

    /// How many units of calls surely succeed yet; 0 of a disk of which none is promised.
    ghost reserve: { Self → ℕ };

    /// The number of sectors, which no call changes.
    fn sectors(&self) -> u64
        ensures { result ≡ (state self.now).sectors };

    /// Whether so many bytes from a sector on are one or more whole sectors of this disk, as `write` and `read` ask.
    fn are_sectors(&self, first: u64, bytes: usize) -> bool
        ensures { IsTrue result ↔ AreSectors first bytes (state self.now).sectors }
    {
        let sectors = self.sectors();
        bytes > 0
            && bytes % SECTOR_BYTES == 0
            && first <= sectors
            && (bytes / SECTOR_BYTES) as u64 <= sectors - first
    }

    /// Writes whole sectors from `first` on. At each moment of the call they may hold any bytes. At Ok they hold these
    /// bytes and are open; at DiskFault each of them is open, or nothing happened to it. The others stay as they are.
    /// The caller owes sectors of this disk (`are_sectors`).
    fn write(&mut self, first: u64, bytes: &[u8]) -> Result<(), DiskFault>
        requires { AreSectors first (length bytes.now) (state self.old).sectors }
        ensures counted { Counted (is_err result) (state self.old) (state self.new) }
        ensures spent { Spends (length bytes.now / 512) (is_err result) (reserve self.old) (reserve self.new) }
        ensures moments { IsTrue (state self.old).honest → Touches first (length bytes.now) (state self.old) (state self.new) }
        ensures opened { IsTrue (state self.old).honest → OnOk result (AreOpen (state self.new) first (length bytes.now)) }
        ensures failed { IsTrue (state self.old).honest → OnErr result (OpenOrSame first (length bytes.now) (state self.old) (state self.new)) }
        ensures others_open { IsTrue (state self.old).honest → SameOpenOutside first (length bytes.now) (state self.old) (state self.new) }
        ensures written { IsTrue (state self.old).honest → OnOk result (Holds (contents_of (state self.new)) first bytes.now) };

    /// Settles all that was written: at Ok no sector is open. At DiskFault nothing was settled.
    fn sync(&mut self) -> Result<(), DiskFault>
        ensures counted { Counted (is_err result) (state self.old) (state self.new) }
        ensures spent { Spends 1 (is_err result) (reserve self.old) (reserve self.new) }
        ensures moments { IsTrue (state self.old).honest → Touches 0 0 (state self.old) (state self.new) }
        ensures synced { IsTrue (state self.old).honest → OnOk result (IsSynced (state self.new)) }
        ensures failed { IsTrue (state self.old).honest → OnErr result (SameOpen (state self.old) (state self.new)) };
}

/// A device of sectors that can also be read.
pub trait Disk: WriteDisk {
    /// Reads whole sectors from `first` on. It changes neither the contents nor which sectors are open. DiskFault where
    /// the device failed; then the bytes read may be any. The caller owes sectors of this disk (`are_sectors`).
    fn read(&mut self, first: u64, bytes: &mut [u8]) -> Result<(), DiskFault>
        requires { AreSectors first (length bytes.old) (Self.state self.old).sectors }
        ensures counted { Counted (is_err result) (Self.state self.old) (Self.state self.new) }
        ensures spent { Spends 0 (is_err result) (Self.reserve self.old) (Self.reserve self.new) }
        ensures moments { IsTrue (Self.state self.old).honest → Touches 0 0 (Self.state self.old) (Self.state self.new) }
        ensures same_open { IsTrue (Self.state self.old).honest → SameOpen (Self.state self.old) (Self.state self.new) }
        ensures bytes { IsTrue (Self.state self.old).honest → OnOk result (Holds (contents_of (Self.state self.old)) first bytes.new) };
}
