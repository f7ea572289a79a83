//! The names of values in JSON (`docs/reference/json.md`).

use crate::hex_text::HexText;
use crate::kept::write_ascii;
use crate::records::source::Source;
use crate::values::{cold_name, level_number};
use driver::{Acknowledged, Confirmed, DriverIdentity};
use events::TelegramBytes;
use mode_table::{Cold, TrainLevel};
use packet_uses::Fate;
use serde::Serializer;
use track_packets::kind_of;

pub(crate) fn write_source<S: Serializer>(
    source: &Option<Source>,
    out: &mut S,
) -> Result<(), S::Error> {
    match source {
        Some(Source::Journal) => out.str("journal"),
        Some(Source::AfterGap) => out.str("after_gap"),
        Some(Source::Replaced) => out.str("replaced"),
        Some(Source::Unwritten) => out.str("unwritten"),
        Some(Source::Misplaced) => out.str("misplaced"),
        Some(Source::Damaged) => out.str("damaged"),
        None => out.unit(),
    }
}

pub(crate) fn write_cold<S: Serializer>(cold: &Cold, out: &mut S) -> Result<(), S::Error> {
    out.str(cold_name(*cold))
}

pub(crate) fn write_bytes<S: Serializer>(
    bytes: &TelegramBytes,
    out: &mut S,
) -> Result<(), S::Error> {
    out.collect_str(&HexText::lower(bytes.as_slice()))
}

pub(crate) fn write_identity<S: Serializer>(
    identity: &DriverIdentity,
    out: &mut S,
) -> Result<(), S::Error> {
    write_ascii(identity.bytes(), out)
}

pub(crate) fn write_level_number<S: Serializer>(
    level: &TrainLevel,
    out: &mut S,
) -> Result<(), S::Error> {
    out.u64(level_number(*level))
}

pub(crate) fn write_confirmed<S: Serializer>(
    item: &Confirmed,
    out: &mut S,
) -> Result<(), S::Error> {
    out.str(match item {
        Confirmed::Identity => "identity",
        Confirmed::RunningNumber => "running_number",
        Confirmed::TrainData => "train_data",
        Confirmed::Level => "level",
    })
}

pub(crate) fn write_acknowledged<S: Serializer>(
    reason: &Acknowledged,
    out: &mut S,
) -> Result<(), S::Error> {
    out.str(match reason {
        Acknowledged::Trip => "trip",
        Acknowledged::OnSight => "on_sight",
        Acknowledged::Shunting => "shunting",
        Acknowledged::Level0 => "level_0",
    })
}

pub(crate) fn write_packet_name<S: Serializer>(number: &u8, out: &mut S) -> Result<(), S::Error> {
    match kind_of(*number) {
        Some(kind) => out.str(kind.name.text()),
        None => out.unit(),
    }
}

pub(crate) fn write_fate<S: Serializer>(fate: &Fate, out: &mut S) -> Result<(), S::Error> {
    match fate {
        Fate::Used => out.unit(),
        Fate::NotKnown => out.str("not_known"),
        Fate::Infill => out.str("infill"),
        Fate::NotInMode => out.str("not_in_mode"),
        Fate::OtherDirection => out.str("other_direction"),
        Fate::Refused => out.str("refused"),
    }
}
