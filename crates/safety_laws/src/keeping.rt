//! Law: what outlives a loss of power.
ghost use Rattle.safety_laws.specs.Keeping.{LevelOverAll, PositionOverAll};

/// A law: the level and the position that are kept, with their status, are what the whole list says, over all lives and
/// words.
pub fn level_and_position_over_all()
    ensures level { LevelOverAll }
    ensures position { PositionOverAll }
{}
