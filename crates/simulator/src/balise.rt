//! The place of a balise, and the input that its telegram makes.
ghost use Rattle.std.specs.Prelude.{◌≡◌};

use events::{Input, TelegramBytes};

/// A balise that lies on the track (this project's profile).
#[derive(Drop)]
pub struct Balise {
    /// Where it lies, in centimetres ahead of where the front of the train starts.
    pub at: u64,
    /// The telegram that it sends, 1 to 104 bytes.
    pub bytes: TelegramBytes,
}

impl Balise {
    ghost use Rattle.events.specs.declared.input.Input.TheVariants.{Telegram};

    // What comes in when its telegram is read.
    pub(crate) fn input(&self) -> Input
        ensures { result ≡ Telegram self.now.bytes }
    {
        Input::Telegram(self.bytes.copy())
    }
}
