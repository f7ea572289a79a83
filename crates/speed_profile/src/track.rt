//! The speeds along the track.
use areas::{Areas, NationalSpeeds};
use track_store::Restrictions;

/// The speeds along the track (SUBSET-026, 3.11.3 and 3.11.12).
#[derive(Drop)]
pub struct Track<'a, S> {
    /// The static speeds (packet 27), in metres per hour.
    pub speeds: &'a S,
    /// The temporary speed restrictions (packet 65).
    pub restrictions: &'a Restrictions,
    /// The mode areas (packet 80).
    pub areas: &'a Areas,
    /// The national speeds of now, for the areas without a speed of their own.
    pub national: NationalSpeeds,
}
