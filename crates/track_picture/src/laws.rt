//! A law of bytes and the telegram that they carry.
ghost use Rattle.std.specs.Prelude.{◌≡◌, ◌↔◌, ℕ, List, Some};
ghost use Rattle.telegram.specs.declared.message.Telegram.{Telegram};
ghost use Rattle.telegram.specs.Telegrams.{Carries};
ghost use Rattle.track_picture.specs.Bytes.{telegram_in};

/// A law: the telegram that the history sees in bytes is the one that they carry.
pub fn telegrams_are_carried()
    ensures { (bytes : List ℕ) (t : Telegram) → (telegram_in bytes ≡ Some t) ↔ Carries bytes t }
{}
