//! A disk that lies.
ghost use Rattle.std.specs.Prelude.{◌≡◌, ◌+◌, ◌%◌, ◌^◌, false, if◌then◌else◌};

use crate::{Disk, DiskFault, WriteDisk};

/// A disk that does not keep to the model (this project's profile). It keeps no more than one byte: a read gives the
/// first byte that was last written anywhere, over and over, and each fourth call answers DiskFault. A sync does
/// nothing.
///
/// It is not honest, so that only safety, its number of sectors and the count of its faults are promised.
#[derive(Clone, Copy)]
pub struct Liar {
    sectors: u64,
    calls: u64,
    faults: u64,
    byte: u8,
}

impl Liar {
    ghost use Rattle.disk.specs.Liar.{liar_state};

    /// A disk of so many sectors.
    pub fn new(sectors: u64) -> Liar
        ensures sectors { (liar_state result).sectors ≡ sectors }
        ensures faults { (liar_state result).faults ≡ 0 }
        ensures honest { (liar_state result).honest ≡ false }
    {
        Liar {
            sectors,
            calls: 0,
            faults: 0,
            byte: 0,
        }
    }

    // Counts a call, and says whether it fails.
    fn fails(&mut self) -> bool
        ensures sectors { self.new.sectors ≡ self.old.sectors }
        ensures faults { self.new.faults ≡ (if result then (self.old.faults + 1) % 2 ^ 64 else self.old.faults) }
    {
        self.calls = self.calls.wrapping_add(1);
        let fails = self.calls % 4 == 0;
        if fails {
            self.faults = self.faults.wrapping_add(1);
        }
        fails
    }
}

impl WriteDisk for Liar {
    ghost use Rattle.disk.specs.Liar.{liar_state};

    ghost state = { liar_state };

    ghost reserve = { λ _. 0 };

    fn sectors(&self) -> u64 {
        self.sectors
    }

    fn write(&mut self, _first: u64, bytes: &[u8]) -> Result<(), DiskFault> {
        if self.fails() {
            return Err(DiskFault);
        }
        self.byte = bytes[0];
        Ok(())
    }

    fn sync(&mut self) -> Result<(), DiskFault> {
        if self.fails() {
            return Err(DiskFault);
        }
        Ok(())
    }
}

impl Disk for Liar {
    fn read(&mut self, _first: u64, bytes: &mut [u8]) -> Result<(), DiskFault> {
        if self.fails() {
            return Err(DiskFault);
        }
        bytes.fill(self.byte);
        Ok(())
    }
}
