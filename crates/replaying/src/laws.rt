//! What follows from the definitions alone.
ghost use Rattle.replaying.specs.Laws.{EachHeadIsLed, UnitsAgree, VerdictsExclude};

/// A law: whatever a head of a block says, there is a story after which just that is kept. So what is said of each such
/// story is never said of nothing.
pub fn each_head_is_led()
    ensures { EachHeadIsLed }
{}

/// A law: on a disk that represents the events of a unit, the records of each block of format 3 are the kernel's
/// answers, one after another. So no replay says that one differs.
pub fn units_agree()
    ensures { UnitsAgree }
{}

/// A law: of a record that is the kernel's answer no verdict says that it differs.
pub fn verdicts_exclude()
    ensures { VerdictsExclude }
{}
