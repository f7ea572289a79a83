//! A scenario's life is played on an image of its own, and each output that is released is reported.

use crate::played::{PlayLine, first_line, last_line};
use crate::reporting::report_released;
use events::Step;
use image_lines::LineSink;
use lives::LateError;
use mode_table::Cold;
use scenario_player::play_first;
use std::alloc::Global;
use whole_lives::LiveError;

/// How many blocks the image has, as few as an image may have.
const BLOCKS: u32 = 2;

/// A life that a scenario asks for (this project's profile).
#[derive(Drop)]
pub struct PlayedLife {
    /// What is known of movements without power.
    pub cold: Cold,
    /// The steps of the life.
    pub steps: Vec<Step>,
    /// Of each step of the scenario, how many steps of the life there are up to its end.
    pub ends: Vec<usize>,
}

/// Plays a life on an empty image in memory, and hands to a sink a line before the first output, one of each output that
/// is released, with the step of the scenario that it comes from and its causes, and a last one, which says whether the
/// life came to its end (this project's profile). It answers why it didn't. Write is an error of the sink; NoMemory where
/// memory is refused for the life or a line.
pub fn play<S: LineSink<PlayLine>>(
    alloc: Global,
    life: &PlayedLife,
    sink: &mut S,
) -> Result<Option<LiveError>, LateError> {
    let Ok(played) = play_first(alloc, BLOCKS, life.cold, life.steps.as_slice(), 0) else {
        return Err(LateError::NoMemory);
    };
    let (ends, stopped) = (life.ends.as_slice(), played.ended.err());
    sink.take(&first_line(life.cold, ends.len()))?;
    report_released(alloc, life, played.released.as_slice(), sink)?;
    sink.take(&last_line(ends, &stopped))?;
    Ok(stopped)
}
