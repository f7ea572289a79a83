//! Whether a profile has values somewhere, or all along a stretch of track.
ghost use Rattle.std.specs.Prelude.{◌≡◌, ◌↔◌, IsTrue};
ghost use Rattle.track_store.specs.Profiles.{is_known, is_known_over, IsKnownThroughout};

use crate::Profile;
use units::Cm;

/// Whether a profile has a value at a centimetre from one to another, both included. It goes from change to change, and
/// takes no memory.
pub fn is_known_over<T: Copy, P: Profile<T>>(profile: &P, from: Cm, to: Cm) -> bool
    ensures { result ≡ is_known_over (P.value profile.now) from to }
{
    let mut place = from;
    let mut near = 0;
    while place <= to {
        let here = profile.piece(place, near);
        if here.value.is_some() {
            return true;
        }
        near = here.near;
        match here.next {
            Some(next) => place = next,
            None => return false,
        }
    }
    false
}

/// What `ProfileStore::is_known_throughout` answers, of a profile that has no shorter way than from change to change. It
/// takes no memory.
pub(crate) fn is_known_by_pieces<T: Copy, P: Profile<T>>(profile: &P, from: Cm, end: Cm) -> bool
    ensures { IsTrue result ↔ IsKnownThroughout (P.value profile.now) from end }
{
    let mut place = from;
    let mut near = 0;
    while place < end {
        let here = profile.piece(place, near);
        if here.value.is_none() {
            return false;
        }
        near = here.near;
        match here.next {
            Some(next) => place = next,
            None => return true,
        }
    }
    true
}

/// Whether a profile has a value at any centimetre of the track. It goes from change to change, and takes no memory.
pub fn is_known<T: Copy, P: Profile<T>>(profile: &P) -> bool
    ensures { result ≡ is_known (P.value profile.now) }
{
    is_known_over(profile, Cm::MIN, Cm::MAX)
}
