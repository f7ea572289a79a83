//! The numbers by which C gets what is one of several values.
ghost use Rattle.std.specs.Prelude.{◌≡◌};
ghost use Rattle.blocks.specs.Codes.{kind_number};
ghost use Rattle.blocks.specs.Records.{kind_name};
ghost use Rattle.image_calls.specs.Numbers.{format_number};

use blocks::Format;
use events::{Event, Input};

/// The number of a format, 1 to 3.
pub(crate) fn format_number(format: Format) -> u8
    ensures { result ≡ format_number format }
{
    format as u8 + 1
}

/// The number of the kind of an event, 1 to 5.
pub(crate) fn kind_number(event: &Event) -> u8
    ensures { result ≡ kind_number (kind_name event.now) }
{
    match event {
        Event::PowerUp(_) => 1,
        Event::Input(Input::Telegram(_)) => 2,
        Event::Input(Input::Odometer(_)) => 3,
        Event::Input(Input::Clock(_)) => 4,
        Event::Input(Input::Driver(_)) => 5,
    }
}
