//! What holds of every disk in memory.
ghost use Rattle.disk.specs.Memory.{ReachesEachImage, SettlesToImages};

use crate::Memory;

/// Every list of choices settles a disk to an image of it, and each image, being made of bytes, is what some list of
/// choices settles it to: so `settle` tries what a cut may leave, no more and no less.
pub fn settling_gives_each_image(disk: &Memory)
    ensures images { SettlesToImages disk.now }
    ensures each { ReachesEachImage disk.now }
{
    disk.kept();
}
