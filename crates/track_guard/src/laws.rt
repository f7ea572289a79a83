//! Laws of the table and of the guard.
ghost use Rattle.track_guard.specs.Guarding.{OnlyAdds, TripIsHeld, WarningChangesNothing};
ghost use Rattle.track_guard.specs.Laws.{AllAreLookedAt, EachByItself, OnlyOneWayIsLeftOut, RefusedIsNeverSilent, RowsAreDemanded, UnknownDemandsWhatEachDoes, UsedDemandsNothing};
ghost use Rattle.track_guard.specs.Worked.{Worked};

/// A law: what packets demand is each row of the table that applies to one of them, and no other demand.
pub fn rows_are_demanded_and_no_others()
    ensures { RowsAreDemanded }
{}

/// A law: of a telegram that bytes carry all packets are looked at, in their order, each at its place.
pub fn all_packets_are_looked_at()
    ensures { AllAreLookedAt }
{}

/// A law: where several packets are in one message, the demands of each stay, in the order of the packets.
pub fn each_packet_is_judged_by_itself()
    ensures { EachByItself }
{}

/// A law: packets of numbers that the mode uses demand nothing, but for an authority with a V_LOA that never ends.
pub fn used_in_full_demands_nothing()
    ensures { UsedDemandsNothing }
{}

/// A law: a telegram that is refused demands something in every mode.
pub fn refused_telegrams_are_never_silent()
    ensures { RefusedIsNeverSilent }
{}

/// A law: where the direction isn't known, a telegram demands what it demands in each direction: in one, the packets that
/// are valid for that one only demand more, and nothing else does.
pub fn unknown_direction_demands_what_each_does()
    ensures each { UnknownDemandsWhatEachDoes }
    ensures left_out { OnlyOneWayIsLeftOut }
{}

/// A law: a guard never takes away from the unit's brake; one that warns leaves it as it is; a strict one that heard a demand
/// of a trip commands the emergency brake until the driver acknowledges at standstill.
pub fn guard_only_adds_braking()
    ensures adds { OnlyAdds }
    ensures warns { WarningChangesNothing }
    ensures holds { TripIsHeld }
{}

/// A law: what the rows of the table demand, worked by hand.
pub fn rows_worked_by_hand()
    ensures { Worked }
{}
