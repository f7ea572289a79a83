//! The numbers of what an output commands and shows.
ghost use Rattle.std.specs.Prelude.{◌≡◌};
ghost use Rattle.blocks.specs.Codes.{output_level_number, brake_number};

use events::Brake;
use mode_table::TrainLevel;

/// The number of the level of an output, 255 where none is valid.
pub fn level_number(level: Option<TrainLevel>) -> u8
    ensures { result ≡ output_level_number level }
{
    match level {
        Some(level) => level.number(),
        None => 255,
    }
}

/// The number of a command to the brakes.
pub fn brake_number(brake: Brake) -> u8
    ensures { result ≡ brake_number brake }
{
    match brake {
        Brake::None => 0,
        Brake::Service => 1,
        Brake::Emergency => 2,
    }
}
