//! What a life released is reported, in its order.

use crate::ends::step_from;
use crate::played::{PlayLine, output_line};
use crate::playing::PlayedLife;
use events::{Event, Kept, Step};
use image_lines::LineSink;
use lives::LateError;
use onboard::Released;
use reasons::Reasoning;
use std::alloc::Global;

/// Hands on a line of each output that was released, in their order: each is that of the next input of the life.
pub(crate) fn report_released<S: LineSink<PlayLine>>(
    alloc: Global,
    life: &PlayedLife,
    released: &[Released],
    sink: &mut S,
) -> Result<(), LateError> {
    let ends = life.ends.as_slice();
    let (mut reasoning, _) = Reasoning::begin(alloc, &Kept::nothing(), life.cold);
    let mut released = released.iter();
    let mut step = 0;
    for (place, made) in life.steps.iter().enumerate() {
        let Step::Accept(input) = made else {
            continue;
        };
        let Some(output) = released.next() else {
            return Ok(());
        };
        let Ok(_) = reasoning.follow(alloc, &Event::Input(input.copy())) else {
            return Err(LateError::NoMemory);
        };
        step = step_from(ends, step, place);
        let Ok(line) = output_line(alloc, &reasoning, step as u64, output) else {
            return Err(LateError::NoMemory);
        };
        sink.take(&line)?;
    }
    Ok(())
}
