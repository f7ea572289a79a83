//! A law of the limit and the train's maximum speed.
ghost use Rattle.speed_supervision.specs.Laws.{IsWithinMaximum};

/// A law: no limit is above the train's maximum, in each mode in which the train runs by its data.
pub fn limit_is_within_maximum()
    ensures { IsWithinMaximum }
{}
