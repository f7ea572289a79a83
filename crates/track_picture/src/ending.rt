//! Laws: when a fact counts, and what ends it.
ghost use Rattle.track_picture.specs.Ending.{CountsWhileNotEnded, EndedCountsNoMore, OnlyLatestCounts, NoneAtPowerUp, EachByItsLine, ModesDeleteByTheTable, PlaceIsRead};

/// A law: a fact counts exactly where it came and nothing later has ended it.
pub fn counts_while_not_ended()
    ensures { CountsWhileNotEnded }
{}

/// A law: no fact counts after what ends it, unless it came anew.
pub fn ended_counts_no_more()
    ensures { EndedCountsNoMore }
{}

/// A law: of authorities, mode areas, announced levels and national values that wait, one counts at most.
pub fn only_latest_counts()
    ensures { OnlyLatestCounts }
{}

/// A law: a power-up leaves no fact.
pub fn none_at_power_up()
    ensures { NoneAtPowerUp }
{}

/// A law: the facts of each kind are ended by the kind's line of the table.
pub fn each_by_its_line()
    ensures { EachByItsLine }
{}

/// A law: what a mode deletes by the table of statuses is gone where it is entered, and no mode takes restrictions or
/// national values away.
pub fn modes_delete_by_the_table()
    ensures { ModesDeleteByTheTable }
{}

/// A law: the place of the train, and the group of its last fix, are those by the movements and fixes among the
/// happenings.
pub fn place_is_read()
    ensures { PlaceIsRead }
{}
