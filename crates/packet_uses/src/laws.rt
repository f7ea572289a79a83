//! A law: what is reported of a telegram's packets, along with what the kernel uses.
ghost use Rattle.packet_uses.specs.Laws.{NeverUsedIsSo, ReportedAsUsedIsUsed};

/// A law: of the packets of a telegram, each reported once and in its place, those that are reported as used are just those that the
/// kernel's definitions use of it, in their order.
pub fn reported_as_used_is_used()
    ensures { ReportedAsUsedIsUsed }
{}

/// A law: whatever the mode and the direction, the same packets of a telegram are reported as never used. So no mode uses any of
/// them in any direction.
pub fn never_used_is_so()
    ensures { NeverUsedIsSo }
{}
