//! All demands of a telegram.

use crate::demand::{DemandLine, counts, line_of};
use mode_table::Mode;
use std::alloc::{AllocError, Global};
use track_guard::{Situation, demands};
use vars::LinkOrientation;

/// The train before the telegram.
#[derive(Clone, Copy)]
pub struct Train {
    /// Its mode.
    pub mode: Mode,
    /// Whether an override is active.
    pub overridden: bool,
}

// Adds those that a telegram makes where its group is passed in a direction; only those of one direction, where it is
// named.
fn add_in(
    bytes: &[u8],
    train: Train,
    direction: Option<LinkOrientation>,
    only: Option<LinkOrientation>,
    lines: &mut Vec<DemandLine>,
) -> Result<(), AllocError> {
    let situation = Situation {
        mode: train.mode,
        direction,
        overridden: train.overridden,
    };
    for demand in demands(bytes, situation).as_slice() {
        if counts(only, &demand.source) {
            lines.push(line_of(train.mode, only, demand))?;
        }
    }
    Ok(())
}

/// What `track_guard` demands by a telegram whose group is passed in this direction: each demand, in their order. Where the
/// direction isn't known, first what is demanded anyway, then what is demanded in the nominal direction alone, and in the
/// reverse one alone. The error is that of memory.
pub fn demand_lines(
    alloc: Global,
    bytes: &[u8],
    train: Train,
    direction: Option<LinkOrientation>,
) -> Result<Vec<DemandLine>, AllocError> {
    let mut lines = Vec::new(alloc);
    add_in(bytes, train, direction, None, &mut lines)?;
    if direction.is_none() {
        for only in [LinkOrientation::Nominal, LinkOrientation::Reverse] {
            add_in(bytes, train, Some(only), Some(only), &mut lines)?;
        }
    }
    Ok(lines)
}
