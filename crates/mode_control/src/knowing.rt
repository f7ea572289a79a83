//! Whether the track is known.
ghost use Rattle.std.specs.Prelude.{◌≡◌};
ghost use Rattle.mode_control.specs.Conditions.{is_known_throughout};

use track_store::ProfileStore;
use units::Cm;

/// Whether a profile has a value at each centimetre from one up to another, that one not included.
pub fn is_known<T: Copy, P: ProfileStore<T>>(profile: &P, from: Cm, end: Cm) -> bool
    ensures { result ≡ is_known_throughout (P.value profile.now) from end }
{
    profile.is_known_throughout(from, end)
}
