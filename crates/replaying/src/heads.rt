//! What the head of a block says, along with what the kernel keeps after its events.
ghost use Rattle.std.specs.Prelude.{◌≡◌, MatchOption};
ghost use Rattle.kernel.specs.Lives.{Story};
ghost use Rattle.replaying.specs.Comparing.{KeptDiffersIn};
ghost use Rattle.replaying.specs.Following.{head_after};
ghost use Rattle.replaying.specs.ReplayState.{StandsAfter};

use crate::description::kept_in;
use crate::differences::KeptField;
use crate::keeping::kept_differs;
use crate::replay::Replay;
use blocks::Block;
use events::Kept;

/// A head that isn't what the kernel keeps.
#[derive(Drop)]
pub struct HeadFound {
    /// The first field in which it differs.
    pub field: KeptField,
    /// What the kernel keeps, as the block's format says it.
    pub kept: Kept,
}

/// What differs in the head of a block from what the kernel keeps after the events that were replayed; None exactly
/// where it says just that (SUBSET-026, 4.10; this project's profile).
pub fn compare_head(replay: &Replay, block: &Block) -> Option<HeadFound>
    ensures { (at : Story) → StandsAfter at replay.now →
        MatchOption result (block.now.kept ≡ head_after block.now.format at)
        (λ found. (found.kept ≡ head_after block.now.format at) × KeptDiffersIn found.field block.now.kept found.kept) }
{
    let kept = kept_in(block.format, replay.kept());
    match kept_differs(&block.kept, &kept) {
        None => None,
        Some(field) => Some(HeadFound { field, kept }),
    }
}
