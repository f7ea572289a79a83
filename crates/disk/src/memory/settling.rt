//! What a cut leaves of a disk in memory.
ghost use Rattle.std.specs.Prelude.{◌≡◌, ℕ, ◌*◌, ◌<◌, length, vec_len, if◌then◌else◌, IfOk};
ghost use Rattle.disk.specs.State.{now, contents_of, IsImage, sector_of, last_synced};
ghost use Rattle.disk.specs.Choice.{chosen, settled_sector};

use crate::choice::{Choice, nth};
use crate::memory::Memory;
use crate::plan::Plan;
use crate::record::{bytes_in, unwritten};
use std::alloc::{AllocError, Global};
use units::NoMemory;

impl Memory {
    ghost use Rattle.disk.specs.Memory.{memory_state, handed_of, space_of, IsFresh};

    /// The disk after a cut, with the same space: the i-th open sector, in rising order, holds what the i-th choice
    /// says, and all others hold what they held. An open sector beyond the list is Old. NoMemory where there is none
    /// for it.
    pub fn settle(&self, alloc: Global, choices: &[Choice]) -> Result<Memory, NoMemory>
        ensures sectors { IfOk result (λ m. (memory_state m).sectors ≡ (memory_state self.now).sectors) }
        ensures contents { IfOk result (λ m. (s : ℕ) →
            contents_of (memory_state m) s ≡ settled_sector (memory_state self.now) (handed_of self.now) choices.now s) }
        ensures image { IfOk result (λ m. IsImage (now (memory_state self.now)) (contents_of (memory_state m))) }
        ensures fresh { IfOk result IsFresh }
        ensures space { IfOk result (λ m. space_of m ≡ space_of self.now) }
    {
        Ok(Memory {
            sectors: self.sectors,
            start: self.settled(alloc, choices)?,
            calls: Vec::with_capacity(alloc, self.space.calls)?,
            written: Vec::with_capacity(alloc, self.space.bytes)?,
            places: unwritten(alloc, self.places.len())?,
            space: self.space,
            plan: Plan::Nothing,
            planned_at: 0,
            faults: 0,
        })
    }

    // The bytes of all sectors after a cut.
    fn settled(&self, alloc: Global, choices: &[Choice]) -> Result<Vec<u8>, AllocError>
        ensures size { IfOk result (λ after. vec_len after ≡ 512 * self.now.sectors) }
        ensures sectors { IfOk result (λ after. (s : ℕ) → s < self.now.sectors →
            sector_of after.items s ≡ settled_sector (memory_state self.now) (handed_of self.now) choices.now s) }
    {
        let mut after = Vec::with_capacity(alloc, self.start.len())?;
        let mut next: usize = 0;
        for sector in 0..self.sectors {
            let choice = nth(choices, next);
            after.extend_from_slice(self.sector_after(sector, &choice))?;
            if self.is_open(sector) {
                next += 1;
            }
        }
        Ok(after)
    }

    // What a sector holds after a cut, if this is chosen for it where it is open.
    fn sector_after<'a>(&'a self, sector: u64, choice: &'a Choice) -> &'a [u8]
        requires { sector < self.now.sectors }
        ensures size { length result.now ≡ 512 }
        ensures bytes { result.now ≡ (if (now (memory_state self.now)).is_open sector
            then chosen (last_synced (memory_state self.now) sector) (handed_of self.now sector) choice.now
            else contents_of (memory_state self.now) sector) }
    {
        let trace = self.trace(sector);
        if !trace.is_open {
            return bytes_in(&self.start, &self.written, sector, trace.last);
        }
        match choice {
            Choice::Old => bytes_in(&self.start, &self.written, sector, trace.synced),
            Choice::New => bytes_in(&self.start, &self.written, sector, trace.handed),
            Choice::Given(bytes) => bytes,
        }
    }
}
