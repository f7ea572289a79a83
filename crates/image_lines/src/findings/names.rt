//! The names of fields, and other values that JSON has as text or numbers.

use crate::kept::write_ascii;
use blocks::Format;
use examination::FieldName;
use serde::Serializer;

/// Sends the digits of a digest, `null` where it wasn't taken.
pub(crate) fn write_digest<S: Serializer>(
    digest: &Option<[u8; 64]>,
    out: &mut S,
) -> Result<(), S::Error> {
    match digest {
        Some(digits) => write_ascii(digits, out),
        None => out.unit(),
    }
}

/// The number of a format.
pub(crate) fn format_number(format: Format) -> u64 {
    match format {
        Format::One => 1,
        Format::Two => 2,
        Format::Three => 3,
    }
}

/// Sends the number of a format.
pub(crate) fn write_format<S: Serializer>(format: &Format, out: &mut S) -> Result<(), S::Error> {
    out.u64(format_number(*format))
}

/// Sends the name of a field, `null` where there is none.
pub(crate) fn write_field<S: Serializer>(
    field: &Option<FieldName>,
    out: &mut S,
) -> Result<(), S::Error> {
    match field {
        Some(field) => out.str(field_name(*field)),
        None => out.unit(),
    }
}

/// The name of a field, as `docs/reference/format.md` has it.
pub(crate) fn field_name(field: FieldName) -> &'static str {
    match field {
        FieldName::Mark => "mark",
        FieldName::Version => "version",
        FieldName::SlotCount => "number of slots",
        FieldName::BlockNumber => "number of the block",
        FieldName::Events => "events",
        FieldName::Lives => "lives",
        FieldName::RecordCount => "count of records",
        FieldName::TripOutstanding => "trip outstanding",
        FieldName::IdentityStatus => "status of the identity",
        FieldName::IdentityLength => "length of the identity",
        FieldName::Identity => "identity",
        FieldName::RunningNumberStatus => "status of the running number",
        FieldName::RunningNumber => "running number",
        FieldName::TrainStatus => "status of the train data",
        FieldName::Category => "train category",
        FieldName::Reaction => "reaction time",
        FieldName::TrainLength => "train length",
        FieldName::MaximumSpeed => "maximum speed",
        FieldName::Deceleration => "deceleration",
        FieldName::LevelStatus => "status of the level",
        FieldName::Level => "level",
        FieldName::PositionStatus => "status of the position",
        FieldName::GroupCountry => "country of the group",
        FieldName::GroupNumber => "number of the group",
        FieldName::GroupDistance => "distance from the group",
        FieldName::ShuntingSpeed => "speed in Shunting",
        FieldName::StaffResponsibleSpeed => "speed in Staff Responsible",
        FieldName::OnSightSpeed => "speed in On Sight",
        FieldName::UnfittedSpeed => "speed in Unfitted",
        FieldName::ReleaseSpeed => "release speed",
        FieldName::RollDistance => "distance to roll",
        FieldName::OverrideAllowedSpeed => "speed to override at",
        FieldName::OverrideSpeed => "speed of an override",
        FieldName::OverrideDistance => "distance of an override",
        FieldName::OverrideTime => "time of an override",
        FieldName::StaffResponsibleDistance => "distance in Staff Responsible",
        FieldName::CountryCount => "count of countries",
        FieldName::Country => "country",
        FieldName::Kind => "kind",
        FieldName::Mode => "mode",
        FieldName::Brake => "brake",
        FieldName::PayloadSize => "size of the payload",
        FieldName::Indications => "indications",
        FieldName::EventNumber => "number of the event",
        FieldName::Moment => "moment",
        FieldName::Place => "place",
        FieldName::Uncertainty => "uncertainty",
        FieldName::Limit => "limit",
        FieldName::ColdMovement => "word",
        FieldName::Movement => "movement",
        FieldName::Speed => "speed",
        FieldName::ActionCode => "code of the action",
        FieldName::Subject => "subject of the action",
        FieldName::Zero => "zero",
    }
}
