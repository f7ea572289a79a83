//! The bytes of a balise, no more than a telegram has.
ghost use Rattle.std.specs.Prelude.{◌≡◌, ◌↔◌, IsSome, IfSome};
ghost use Rattle.events.specs.Limits.{AreOfATelegram};

use arrayvec::ArrayVec;
use packets::TELEGRAM_BYTES;
use std::marker::Model;

/// The bytes that a balise sent, from 1 to `TELEGRAM_BYTES`; they need not carry a telegram (SUBSET-026, 8.4.2).
#[derive(Drop)]
pub struct TelegramBytes {
    bytes: ArrayVec<u8, TELEGRAM_BYTES>,
}

impl Model for TelegramBytes {
    ghost use Rattle.std.specs.Prelude.{List, ℕ};
    ghost use Rattle.events.specs.Limits.{AreOfATelegram};

    ghost Value = { List ℕ };

    ghost view = { λ t. t.bytes.items };

    ghost invariant = { λ t. AreOfATelegram t.bytes.items };
}

impl TelegramBytes {
    /// These bytes; None exactly where they are too few or too many.
    pub fn new(bytes: &[u8]) -> Option<TelegramBytes>
        ensures found { IsSome result ↔ AreOfATelegram bytes.now }
        ensures value { IfSome result (λ t. t ≡ bytes.now) }
    {
        if bytes.is_empty() || bytes.len() > TELEGRAM_BYTES {
            return None;
        }
        Some(TelegramBytes {
            bytes: ArrayVec::try_from(bytes).unwrap(),
        })
    }

    /// An equal value. Takes no memory.
    pub fn copy(&self) -> TelegramBytes
        ensures { result ≡ self.now }
    {
        TelegramBytes {
            bytes: ArrayVec::try_from(self.bytes.as_slice()).unwrap(),
        }
    }

    /// The bytes.
    pub fn as_slice(&self) -> &[u8]
        ensures value { result.now ≡ self.now }
        ensures limits { AreOfATelegram result.now }
    {
        self.bytes.as_slice()
    }
}
