//! What a guard next to the unit demands by the telegram of an event.

use crate::course::Explanation;
use crate::group::GroupLine;
use events::{Event, Input};
use image_lines::{DemandLine, Train, demand_lines};
use mode_table::Mode;
use std::alloc::{AllocError, Global};
use vars::{LinkOrientation, Variable};

// The direction in which the group of a telegram was passed, where it is one of these.
fn direction_in(bytes: &[u8], groups: &[GroupLine]) -> Option<LinkOrientation> {
    let Ok(walk) = telegram::packets(bytes) else {
        return None;
    };
    let group = walk.header().group;
    for line in groups {
        if line.country == group.country.number() && line.group == group.number.number() {
            return line.direction;
        }
    }
    None
}

/// What the telegram of an event demands, in the mode before it, after an event that was answered so, where it closed these
/// groups. The error is that of memory.
pub(crate) fn demands_of(
    alloc: Global,
    event: &Event,
    mode: Mode,
    before: &Option<Explanation>,
    groups: &[GroupLine],
) -> Result<Vec<DemandLine>, AllocError> {
    match event {
        Event::Input(Input::Telegram(bytes)) => {
            let train = Train {
                mode,
                overridden: before.is_some_and(|before| before.overridden),
            };
            let direction = direction_in(bytes.as_slice(), groups);
            demand_lines(alloc, bytes.as_slice(), train, direction)
        }
        Event::Input(Input::Odometer(_) | Input::Clock(_) | Input::Driver(_)) | Event::PowerUp(_) =>
            Ok(Vec::new(alloc)),
    }
}
