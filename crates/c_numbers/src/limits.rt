//! The numbers of what decides a limit.
ghost use Rattle.std.specs.Prelude.{◌≡◌};
ghost use Rattle.c_numbers.specs.Numbers.{limit_number};

use reasons::LimitKind;

/// The number of what decides a limit.
pub fn limit_number(kind: LimitKind) -> u8
    ensures { result ≡ limit_number kind }
{
    match kind {
        LimitKind::NoSpeed => 1,
        LimitKind::NoTrainData => 2,
        LimitKind::StaffResponsible => 3,
        LimitKind::Override => 4,
        LimitKind::Shunting => 5,
        LimitKind::Unfitted => 6,
        LimitKind::Maximum => 7,
        LimitKind::Main => 8,
        LimitKind::End => 9,
        LimitKind::StaticSpeed => 10,
        LimitKind::Restriction => 11,
        LimitKind::Area => 12,
        LimitKind::StaticSpeedAhead => 13,
        LimitKind::UnknownSpeedAhead => 14,
        LimitKind::RestrictionAhead => 15,
        LimitKind::AreaAhead => 16,
        LimitKind::EndOfAuthority => 17,
        LimitKind::SupervisedLocation => 18,
        LimitKind::Release => 19,
        LimitKind::NationalRelease => 20,
    }
}
