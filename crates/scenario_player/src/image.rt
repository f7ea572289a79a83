//! Journals in memory, and the bytes of their images.
ghost use Rattle.std.specs.Prelude.{◌≡◌, ◌≤◌, IfOk};
ghost use Rattle.blocks.specs.FirstSector.{least_slots, most_slots, sectors_of};
ghost use Rattle.disk.specs.Memory.{memory_state};
ghost use Rattle.scenario_player.specs.Calls.{flushes_in, calls_of};
ghost use Rattle.scenario_player.specs.Playing.{IsEmpty, AreBytesOf, StaysReady};

use disk::{Disk, Memory, SECTOR_BYTES, WriteDisk};
use events::Step;
use journal::format;
use ring::sectors_before;
use std::alloc::Global;
use units::NoMemory;

// How many flushes the steps have.
fn flushes_in(steps: &[Step]) -> u64
    ensures { result ≡ flushes_in steps.now }
{
    let mut flushes: u64 = 0;
    for step in steps {
        if let Step::Flush = step {
            flushes += 1;
        }
    }
    flushes
}

/// At least as many calls of the device as a life of these steps makes on a journal of so many slots, and then one to
/// read the image.
pub(crate) fn calls_of(slots: u32, steps: &[Step]) -> u64
    ensures { result ≡ calls_of slots steps.now }
{
    let for_flushes = flushes_in(steps).saturating_add(16).saturating_mul(8);
    for_flushes.saturating_add(2 * u64::from(slots))
}

/// An empty journal of so many slots, whose disk has capacity for so many calls.
pub(crate) fn empty_journal(alloc: Global, slots: u32, calls: u64) -> Result<Memory, NoMemory>
    requires slots { (least_slots ≤ slots) × (slots ≤ most_slots) }
    ensures empty { IfOk result (λ m. IsEmpty slots (memory_state m)) }
    ensures sectors { IfOk result (λ m. (memory_state m).sectors ≡ sectors_of slots) }
{
    // A format calls the device once for each slot and three times more.
    let calls = calls.saturating_add(2 * u64::from(slots));
    let mut disk = Memory::new(alloc, sectors_before!(u64::from(slots)), calls, calls)?;
    match format(&mut disk, slots) {
        Ok(()) => Ok(disk),
        Err(_) => Err(NoMemory),
    }
}

/// The bytes of the journal image on a disk.
pub fn image_of(alloc: Global, disk: &mut Memory) -> Result<Vec<u8>, NoMemory>
    ensures bytes { IfOk result (λ image. AreBytesOf (memory_state disk.old) image.items) }
    ensures stays { StaysReady (memory_state disk.old) (memory_state disk.new) }
{
    let size = (disk.sectors() as usize)
        .checked_mul(SECTOR_BYTES)
        .ok_or(NoMemory)?;
    if !disk.are_sectors(0, size) {
        return Err(NoMemory);
    }
    let mut image = vec![in alloc; 0; size]?;
    match disk.read(0, &mut image) {
        Ok(()) => Ok(image),
        Err(_) => Err(NoMemory),
    }
}
