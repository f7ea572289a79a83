//! Laws: when an area is met, and when an acknowledgement is owed or was given.
ghost use Rattle.areas.specs.AcknowledgingLaws.{OwedSo, OwedStays, DoneSo};
ghost use Rattle.areas.specs.Laws.{AreasAreMetSo};

/// A law: an area is met exactly where it covers a centimetre from the minimum to the maximum safe front, both
/// included.
pub fn areas_are_met_so()
    ensures { AreasAreMetSo }
{}

/// A law: an acknowledgement is owed since a moment exactly where the relation over the entries says so.
pub fn owed_so()
    ensures { OwedSo }
{}

/// A law: it was given before the transition exactly where the relation over the entries says so.
pub fn done_so()
    ensures { DoneSo }
{}

/// A law: what is owed stays owed, until it is acknowledged or a mode is entered that deletes it.
pub fn owed_stays()
    ensures { OwedStays }
{}
