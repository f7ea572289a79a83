//! The steps of a scenario that steps of its life come from.

use whole_lives::LiveError;

/// The step of the scenario that a step of the life comes from, where it is none of the first ones.
pub(crate) fn step_from(ends: &[usize], first: usize, place: usize) -> usize {
    for step in first..ends.len() {
        if ends[step] > place {
            return step;
        }
    }
    ends.len()
}

/// The step of the scenario at which the life stopped; none where no life began.
pub(crate) fn step_named(ends: &[usize], error: LiveError) -> Option<u64> {
    let place = match error {
        LiveError::Open(_) => return None,
        LiveError::Accept(place, _) => place,
        LiveError::Flush(place, _) => place,
        LiveError::NoMemory(place) => place,
    };
    Some(step_from(ends, 0, place) as u64)
}
