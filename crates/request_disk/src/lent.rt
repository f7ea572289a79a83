//! The disk, lent for reading some of its sectors.
ghost use Rattle.std.specs.Prelude.{◌≡◌, ℕ, ◌+◌, ◌*◌, ◌/◌, ◌%◌, ◌^◌, ◌<◌, ◌≤◌, length, true, Some, None, IfErr, IfSome, OnOk, OnErr, is_err, is_some, not};
ghost use Rattle.disk.specs.State.{contents_of, AreSectors, Counted, Touches, Holds, AreOpen, OpenOrSame, SameOpenOutside, SameOpen, IsSynced};
ghost use Rattle.disk.specs.Reserve.{Spends};
ghost use Rattle.request_disk.specs.Lent.{lent_state};

use crate::requesting::RequestDisk;
use disk::{Disk, DiskFault, SECTOR_BYTES, WriteDisk};
use std::marker::Model;

/// A disk of which some sectors are lent for reading: a read of one of them that isn't known answers DiskFault, and wants
/// it here, so that the disk beneath stays as it is. A sector that wasn't lent, and isn't known, reads as zeros: a call is
/// lent the sectors that it needs, and what it says is said of these. Each write fails.
#[derive(Drop)]
pub struct LentDisk<'a> {
    disk: &'a RequestDisk,
    // The first sector that is lent, and how many are.
    first: u64,
    count: u64,
    faults: u64,
    wanted: Option<u64>,
    // The first sector of the first write that was tried.
    tried: Option<u64>,
}

impl<'a> Model for LentDisk<'a> {
    ghost use Rattle.request_disk.specs.Lent.{Lent, DescribesMissing};

    ghost Value = { Lent };

    ghost view = { λ r. record { disk = r.disk.now; first = r.first; count = r.count; faults = r.faults; wanted = r.wanted; tried = r.tried } };

    ghost invariant = { λ r. DescribesMissing (record { disk = r.disk.now; first = r.first; count = r.count; faults = r.faults; wanted = r.wanted; tried = r.tried }) };
}

impl<'a> LentDisk<'a> {
    ghost use Rattle.request_disk.specs.Lent.{lent_of, is_lent, fails_at, lent_contents, WantsMissing, IsMissing, ReadsAll, IsFirstMissing};
    ghost use Rattle.request_disk.specs.Requesting.{Requesting};

    /// Lends so many sectors of a disk, from `first` on.
    pub fn of(disk: &'a RequestDisk, first: u64, count: u64) -> LentDisk<'a>
        ensures { result ≡ lent_of disk.now first count }
    {
        LentDisk {
            disk,
            first,
            count,
            faults: 0,
            wanted: None,
            tried: None,
        }
    }

    /// The sector that the last read wanted that failed. Where calls that only read failed since sectors were lent, it is
    /// one of them that the disk has, and that isn't known.
    pub fn wanted(&self) -> Option<u64>
        ensures exact { result ≡ self.now.wanted }
        ensures missing { (disk : Requesting) (first count : ℕ) →
            Counted true (lent_state (lent_of disk first count)) (lent_state self.now) →
            Touches 0 0 (lent_state (lent_of disk first count)) (lent_state self.now) →
            WantsMissing disk first count result }
    {
        self.wanted
    }

    // Whether a sector was lent.
    fn lends(&self, sector: u64) -> bool
        ensures { result ≡ is_lent self.now.first self.now.count sector }
    {
        sector >= self.first && sector - self.first < self.count
    }

    // Counts a failure.
    fn fault(&mut self) -> DiskFault
        requires { self.old.tried ≡ None → ⊥ }
        ensures { self.new ≡ record self.old { faults = (self.old.faults + 1) % 2 ^ 64 } }
    {
        self.faults = self.faults.wrapping_add(1);
        DiskFault
    }

    // What it holds of a sector, None where a read of it fails.
    fn held(&self, sector: u64) -> Option<&[u8]>
        requires { sector < self.now.disk.sectors }
        ensures size { IfSome result (λ bytes. length bytes.now ≡ 512) }
        ensures bytes { IfSome result (λ bytes.
            bytes.now ≡ lent_contents self.now.disk self.now.first self.now.count sector) }
        ensures fails { is_some result ≡ not (fails_at self.now.disk self.now.first self.now.count sector) }
        ensures missing { result ≡ None → IsMissing self.now.disk self.now.first self.now.count sector }
    {
        match self.disk.sector(sector) {
            Some(bytes) => Some(bytes),
            None => {
                if self.lends(sector) {
                    return None;
                }
                Some(&[0; SECTOR_BYTES])
            }
        }
    }

    // What it holds of these sectors; else the first of them at which a read fails.
    fn copy(&self, first: u64, out: &mut [u8]) -> Result<(), u64>
        requires whole { length out.old % 512 ≡ 0 }
        requires within { 512 * first + length out.old ≤ 512 * self.now.disk.sectors }
        ensures bytes { OnOk result (Holds (lent_contents self.now.disk self.now.first self.now.count) first out.new) }
        ensures all { OnOk result (ReadsAll first (length out.old) self.now) }
        ensures first { IfErr result (IsFirstMissing first (length out.old) self.now) }
        ensures missing { IfErr result (IsMissing self.now.disk self.now.first self.now.count) }
    {
        // That a sector's number fits its type.
        let _sectors = self.disk.sectors();
        for i in 0..out.len() / SECTOR_BYTES {
            let at = SECTOR_BYTES * i;
            let sector = first + i as u64;
            match self.held(sector) {
                Some(bytes) => out[at..at + SECTOR_BYTES].copy_from_slice(bytes),
                None => return Err(sector),
            }
        }
        Ok(())
    }
}

impl<'a> WriteDisk for LentDisk<'a> {
    ghost state = { lent_state };

    // A read may fail at any time.
    ghost reserve = { λ _. 0 };

    fn sectors(&self) -> u64 {
        self.disk.sectors()
    }

    fn write(&mut self, first: u64, bytes: &[u8]) -> Result<(), DiskFault>
        requires { AreSectors first (length bytes.now) (lent_state self.old).sectors }
        ensures counted { Counted (is_err result) (lent_state self.old) (lent_state self.new) }
        ensures spent { Spends (length bytes.now / 512) (is_err result) 0 0 }
        ensures moments { Touches first (length bytes.now) (lent_state self.old) (lent_state self.new) }
        ensures opened { OnOk result (AreOpen (lent_state self.new) first (length bytes.now)) }
        ensures failed { OnErr result (OpenOrSame first (length bytes.now) (lent_state self.old) (lent_state self.new)) }
        ensures others_open { SameOpenOutside first (length bytes.now) (lent_state self.old) (lent_state self.new) }
        ensures written { OnOk result (Holds (contents_of (lent_state self.new)) first bytes.now) }
        ensures fails { is_err result ≡ true }
    {
        if self.tried.is_none() {
            self.tried = Some(first);
        }
        Err(self.fault())
    }

    // Nothing was written, so that there is nothing to settle; where a write was tried it fails.
    fn sync(&mut self) -> Result<(), DiskFault>
        ensures counted { Counted (is_err result) (lent_state self.old) (lent_state self.new) }
        ensures spent { Spends 1 (is_err result) 0 0 }
        ensures moments { Touches 0 0 (lent_state self.old) (lent_state self.new) }
        ensures synced { OnOk result (IsSynced (lent_state self.new)) }
        ensures failed { OnErr result (SameOpen (lent_state self.old) (lent_state self.new)) }
    {
        match self.tried {
            None => Ok(()),
            Some(_) => Err(self.fault()),
        }
    }
}

impl<'a> Disk for LentDisk<'a> {
    ghost use Rattle.request_disk.specs.Lent.{ReadsAll, Misses};

    fn read(&mut self, first: u64, bytes: &mut [u8]) -> Result<(), DiskFault>
        requires { AreSectors first (length bytes.old) (lent_state self.old).sectors }
        ensures counted { Counted (is_err result) (lent_state self.old) (lent_state self.new) }
        ensures spent { Spends 0 (is_err result) 0 0 }
        ensures moments { Touches 0 0 (lent_state self.old) (lent_state self.new) }
        ensures same_open { SameOpen (lent_state self.old) (lent_state self.new) }
        ensures bytes { OnOk result (Holds (contents_of (lent_state self.old)) first bytes.new) }

        // It succeeds exactly where each sector is known or wasn't lent, and then nothing changes; else the first of the
        // others is wanted.
        ensures still { OnOk result (self.new ≡ self.old) }
        ensures known { OnOk result (ReadsAll first (length bytes.old) self.old) }
        ensures wanted { OnErr result (Misses first (length bytes.old) self.old self.new) }
    {
        match self.copy(first, bytes) {
            Ok(()) => Ok(()),
            Err(sector) => {
                self.wanted = Some(sector);
                self.faults = self.faults.wrapping_add(1);
                Err(DiskFault)
            }
        }
    }
}
