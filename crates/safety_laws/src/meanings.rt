//! Law: what the definitions mean that the promises rest on.
ghost use Rattle.safety_laws.specs.Meanings.{ImagesMayBeLeft, ReadyHolds, MomentsHold, OpeningHolds, ColdIsOfFormat, LifeHolds, LeftAtEachMoment, FlushedIsDurable, EachHasItsOutput, ReleasedIsKept, EachStands, LivesFollow, LeftWithReleased};

/// A law: the definitions that the promises rest on mean at least this. Where one of them is weakened, a clause fails.
pub fn promises_keep_their_meaning()
    ensures images { ImagesMayBeLeft }
    ensures ready { ReadyHolds }
    ensures moments { MomentsHold }
    ensures opening { OpeningHolds }
    ensures recorded_cold { ColdIsOfFormat }
    ensures life { LifeHolds }
    ensures left { LeftAtEachMoment }
    ensures flushed { FlushedIsDurable }
    ensures outputs { EachHasItsOutput }
    ensures kept { ReleasedIsKept }
    ensures stands { EachStands }
    ensures follow { LivesFollow }
    ensures left_with { LeftWithReleased }
{}
