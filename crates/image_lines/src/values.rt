//! Values that the lines of several commands have, as JSON (`docs/reference/json.md`).

use events::{Brake, Indications};
use mode_table::{Cold, Mode, TrainLevel};
use serde::Serializer;
use text_output::{brake_name, mode_name};

/// Sends a mode as its two letters.
pub fn write_mode<S: Serializer>(mode: &Mode, out: &mut S) -> Result<(), S::Error> {
    out.str(mode_name(*mode))
}

/// Sends a brake command as its name.
pub fn write_brake<S: Serializer>(brake: &Brake, out: &mut S) -> Result<(), S::Error> {
    out.str(brake_name(*brake))
}

/// The number of a level, 0 or 1.
pub(crate) fn level_number(level: TrainLevel) -> u64 {
    match level {
        TrainLevel::Level0 => 0,
        TrainLevel::Level1 => 1,
    }
}

/// Sends the number of a level, `null` where it isn't valid.
pub fn write_level<S: Serializer>(level: &Option<TrainLevel>, out: &mut S) -> Result<(), S::Error> {
    match level {
        Some(level) => out.u64(level_number(*level)),
        None => out.unit(),
    }
}

/// The name of a value for cold movement.
pub fn cold_name(cold: Cold) -> &'static str {
    match cold {
        Cold::Unknown => "unknown",
        Cold::Moved => "moved",
        Cold::NotMoved => "not_moved",
    }
}

/// Each indication: whether it is displayed, and its name.
pub fn named_indications(indications: &Indications) -> [(bool, &'static str); 7] {
    [
        (indications.on_sight, "on_sight"),
        (indications.shunting, "shunting"),
        (indications.level_0, "level_0"),
        (indications.trip, "trip"),
        (indications.overridden, "overridden"),
        (indications.not_revalidated, "not_revalidated"),
        (indications.overspeed, "overspeed"),
    ]
}

/// Sends the names of the indications that are displayed, as a list.
pub fn write_indications<S: Serializer>(
    indications: &Indications,
    out: &mut S,
) -> Result<(), S::Error> {
    out.begin_seq(None)?;
    for (is_displayed, name) in named_indications(indications) {
        if is_displayed {
            out.str(name)?;
        }
    }
    out.end_seq()
}
