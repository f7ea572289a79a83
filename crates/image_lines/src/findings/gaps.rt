//! The lines of what is lost between blocks, and of what contradicts.

use crate::findings::slots::is_held;
use crate::findings::verdict::ExamineLine;
use crate::image_ring::ImageRing;
use crate::sink::{LineSink, hand_on_each};
use blocks::Block;
use disk::Disk;
use examination::{Edge, Lost, contradictions_in, first_event, lost_between, oldest_of};
use lives::WalkError;
use serde::Serialize;

/// Blocks that no slot holds.
#[derive(Drop, Serialize)]
pub struct LostBlocks {
    /// The number of the first of them.
    pub first_block: u64,
    /// The number of the last of them.
    pub last_block: u64,
    /// The number of their first event; None where it isn't known.
    pub first_event: Option<u64>,
    /// The number of their last event; None where it isn't known.
    pub last_event: Option<u64>,
}

/// A block that doesn't follow the one before, or contradicts itself.
#[derive(Drop, Serialize)]
pub struct WrongBlock {
    /// Its number.
    pub block: u64,
}

/// What is lost between blocks, or contradicts.
#[derive(Drop, Serialize)]
#[serde(tag = "what", rename_all = "snake_case")]
pub enum BetweenLine {
    /// Blocks are lost.
    Lost(LostBlocks),
    /// The events of a block don't follow.
    Events(WrongBlock),
    /// The lives of a block don't follow, or are impossible.
    Lives(WrongBlock),
    /// A moment goes back within a life.
    Moment(WrongBlock),
}

// The line of blocks that are lost.
fn lost_line(lost: Lost) -> ExamineLine {
    ExamineLine::Between(BetweenLine::Lost(LostBlocks {
        first_block: lost.first,
        last_block: lost.last,
        first_event: lost.first_event,
        last_event: lost.next_event.and_then(|next| next.checked_sub(1)),
    }))
}

// Where a walk over the numbers of a ring stands.
#[derive(Clone, Copy)]
struct Walk {
    // The last readable block.
    before: Option<Edge>,
    // The first number since that is lost.
    lost_from: Option<u64>,
    // Whether each number so far was held, and no block contradicted.
    is_clean: bool,
}

impl Walk {
    const START: Walk = Walk {
        before: None,
        lost_from: None,
        is_clean: true,
    };

    // The number that is met now is lost.
    fn without(self, number: u64) -> Walk {
        Walk {
            lost_from: Some(self.lost_from.unwrap_or(number)),
            is_clean: false,
            ..self
        }
    }

    // The line of what is lost up to this number, if anything is.
    fn gap_line(self, last: u64, next_event: Option<u64>) -> Option<ExamineLine> {
        let first = self.lost_from?;
        Some(lost_line(lost_between(first, last, self.before, next_event)))
    }

    // The block of this number is held: hands on its lines, with what is lost before it, and goes on after it.
    fn with<S: LineSink<ExamineLine>>(
        self,
        number: u64,
        block: &Block,
        sink: &mut S,
    ) -> Result<Walk, WalkError> {
        let found = contradictions_in(self.before, block);
        let lines = [
            self.gap_line(number.saturating_sub(1), Some(first_event(block))),
            line_if(
                found.events,
                BetweenLine::Events(WrongBlock { block: number }),
            ),
            line_if(
                found.lives,
                BetweenLine::Lives(WrongBlock { block: number }),
            ),
            line_if(
                found.moment,
                BetweenLine::Moment(WrongBlock { block: number }),
            ),
        ];
        hand_on_each(&lines, sink)?;
        let contradicts = found.events || found.lives || found.moment;
        Ok(Walk {
            before: Some(Edge::of(block)),
            lost_from: None,
            is_clean: self.is_clean && !contradicts,
        })
    }
}

// A line, if something is so.
fn line_if(is_so: bool, line: BetweenLine) -> Option<ExamineLine> {
    if is_so {
        Some(ExamineLine::Between(line))
    } else {
        None
    }
}

/// Hands on which blocks are lost of those that the ring should hold, and which contradict those before them, in the
/// order of their numbers, and answers whether none is and none does. DeviceFault where a read fails, else the error of the
/// sink.
pub(crate) fn report_between<D: Disk, S: LineSink<ExamineLine>>(
    disk: &mut D,
    ring: ImageRing,
    sink: &mut S,
) -> Result<bool, WalkError> {
    let mut block = Block::blank();
    let mut walk = Walk::START;
    for number in oldest_of(ring.slots, ring.run.newest)..ring.run.newest + 1 {
        walk = if is_held(disk, ring, number, &mut block)? {
            walk.with(number, &block, sink)?
        } else {
            walk.without(number)
        };
    }
    hand_on_each(&[walk.gap_line(ring.run.newest, None)], sink)?;
    Ok(walk.is_clean)
}
