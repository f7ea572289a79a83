//! Laws: which targets decide the permitted speed, and the release rule.
ghost use Rattle.safety_laws.specs.Starts.{StartsDecide, StartsByKindDecide, LimitByStarts};
ghost use Rattle.safety_laws.specs.Release.{MayRunUpToLimit, ReleaseRule};

/// A law: a target at each centimetre ahead permits the same speed as the starts of lower speeds alone, of all kinds
/// together or of each kind.
pub fn starts_decide()
    ensures together { StartsDecide }
    ensures by_kind { StartsByKindDecide }
    ensures limit { LimitByStarts }
{}

/// A law: the release rule, speed by speed and case by case.
pub fn release_rule()
    ensures speeds { MayRunUpToLimit }
    ensures cases { ReleaseRule }
{}
