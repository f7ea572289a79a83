//! What a cut is chosen to leave.
ghost use Rattle.std.specs.Prelude.{◌≡◌};
ghost use Rattle.disk.specs.Choice.{choice_at};

use crate::SECTOR_BYTES;

/// What an open sector holds after a cut (this project's profile).
#[derive(Clone, Copy)]
pub enum Choice {
    /// Its bytes as last synced.
    Old,
    /// Its bytes as last handed in to a write, also to one that failed.
    New,
    /// These bytes.
    Given([u8; SECTOR_BYTES]),
}

/// The choice at this place, from 0 on; Old past the end of the list.
pub fn nth(choices: &[Choice], place: usize) -> Choice
    ensures { result ≡ choice_at choices.now place }
{
    choices.get(place).copied().unwrap_or(Choice::Old)
}
