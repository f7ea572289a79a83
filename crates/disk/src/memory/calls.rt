//! The calls of a disk in memory.
ghost use Rattle.std.specs.Prelude.{◌≡◌, ◌≢◌, length, IsTrue, OnOk, OnErr, is_err};
ghost use Rattle.disk.specs.State.{contents_of, AreSectors, Counted, Touches, Holds, AreOpen, OpenOrSame, SameOpenOutside, SameOpen, IsSynced, SameBut};

use crate::memory::Memory;
use crate::plan::Fate;
use crate::record::{Call, Span};
use crate::{Disk, DiskFault, SECTOR_BYTES, WriteDisk};

impl WriteDisk for Memory {
    ghost use Rattle.disk.specs.Memory.{memory_state, handed_of, has_space_for, fate_now, HasRun, SameHanded, SameContents};

    ghost state = { memory_state };

    ghost reserve = { λ _. 0 };

    fn sectors(&self) -> u64 {
        self.sectors
    }

    fn write(&mut self, first: u64, bytes: &[u8]) -> Result<(), DiskFault>
        requires { AreSectors first (length bytes.now) (memory_state self.old).sectors }
        ensures counted { Counted (is_err result) (memory_state self.old) (memory_state self.new) }
        ensures moments { Touches first (length bytes.now) (memory_state self.old) (memory_state self.new) }
        ensures opened { OnOk result (AreOpen (memory_state self.new) first (length bytes.now)) }
        ensures failed { OnErr result (OpenOrSame first (length bytes.now) (memory_state self.old) (memory_state self.new)) }
        ensures others_open { SameOpenOutside first (length bytes.now) (memory_state self.old) (memory_state self.new) }
        ensures written { OnOk result (Holds (contents_of (memory_state self.new)) first bytes.now) }
        ensures run { HasRun (length bytes.now) result self.old self.new }

        // One that fails by the plan leaves the old bytes and opens its sectors, and without power nothing changes.
        ensures old_bytes { OnErr result (SameContents self.old self.new) }
        ensures torn { IsTrue (has_space_for (length bytes.now) self.old) → fate_now self.old ≡ Fate.Fails →
            AreOpen (memory_state self.new) first (length bytes.now) }
        ensures dead { fate_now self.old ≡ Fate.Dead → SameOpen (memory_state self.old) (memory_state self.new) × SameHanded self.old self.new }

        // What was handed in is known of one that failed by the plan, too.
        ensures handed { IsTrue (has_space_for (length bytes.now) self.old) → fate_now self.old ≢ Fate.Dead →
            Holds (handed_of self.new) first bytes.now }
        ensures others_handed { SameBut first (length bytes.now) (handed_of self.old) (handed_of self.new) }
    {
        if !self.has_space(bytes.len()) {
            return Err(self.fault());
        }
        let span = Span {
            first,
            sectors: (bytes.len() / SECTOR_BYTES) as u64,
            from: self.written.len(),
        };
        match self.fate() {
            Fate::Runs => {
                self.note(Call::Written(span), bytes);
                Ok(())
            }
            Fate::Fails => {
                self.note(Call::Torn(span), bytes);
                Err(self.fault())
            }
            Fate::Dead => {
                self.note(Call::Quiet, &[]);
                Err(self.fault())
            }
        }
    }

    fn sync(&mut self) -> Result<(), DiskFault>
        ensures counted { Counted (is_err result) (memory_state self.old) (memory_state self.new) }
        ensures moments { Touches 0 0 (memory_state self.old) (memory_state self.new) }
        ensures synced { OnOk result (IsSynced (memory_state self.new)) }
        ensures failed { OnErr result (SameOpen (memory_state self.old) (memory_state self.new)) }
        ensures run { HasRun 0 result self.old self.new }
        ensures handed { SameHanded self.old self.new }
    {
        if !self.has_space(0) {
            return Err(self.fault());
        }
        match self.fate() {
            Fate::Runs => {
                self.note(Call::Synced, &[]);
                Ok(())
            }
            Fate::Fails | Fate::Dead => {
                self.note(Call::Quiet, &[]);
                Err(self.fault())
            }
        }
    }
}

impl Disk for Memory {
    ghost use Rattle.disk.specs.Memory.{memory_state, HasRun, SameHanded};

    fn read(&mut self, first: u64, bytes: &mut [u8]) -> Result<(), DiskFault>
        requires { AreSectors first (length bytes.old) (memory_state self.old).sectors }
        ensures counted { Counted (is_err result) (memory_state self.old) (memory_state self.new) }
        ensures moments { Touches 0 0 (memory_state self.old) (memory_state self.new) }
        ensures same_open { SameOpen (memory_state self.old) (memory_state self.new) }
        ensures bytes { OnOk result (Holds (contents_of (memory_state self.old)) first bytes.new) }
        ensures run { HasRun 0 result self.old self.new }
        ensures handed { SameHanded self.old self.new }
    {
        if !self.has_space(0) {
            return Err(self.fault());
        }
        let fate = self.fate();
        self.note(Call::Quiet, &[]);
        match fate {
            Fate::Runs => {
                self.copy(first, bytes);
                Ok(())
            }
            Fate::Fails | Fate::Dead => Err(self.fault()),
        }
    }
}
