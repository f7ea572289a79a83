//! The state of the track picture: as a life begins, and copied.
ghost use Rattle.std.specs.Prelude.{◌≡◌, [], IsOk, IfOk};
ghost use Rattle.track_picture.specs.StandsFor.{StandsForLife, size_in};

use crate::parts::Parts;
use crate::stores::ProfileStores;
use national::CountryValues;
use std::alloc::Global;
use std::marker::Model;
use track_store::{ProfileStore, Restrictions};
use units::NoMemory;

/// What the track sent and where the train is, with stores for the gradients and the static speeds (this project's
/// profile).
#[derive(Drop)]
pub struct TracksideOver<T: ProfileStores> {
    pub(crate) parts: Parts,
    pub(crate) restrictions: Restrictions,
    pub(crate) gradients: T::Gradients,
    pub(crate) speeds: T::Speeds,
}

impl<T: ProfileStores> Model for TracksideOver<T> {
    ghost use Rattle.track_picture.specs.StandsFor.{Knowledge};

    ghost Value = { Knowledge T.Gradients T.Speeds };

    ghost view = { λ s. record { parts = s.parts; restrictions = s.restrictions; gradients = s.gradients; speeds = s.speeds } };
}

impl<T: ProfileStores> TracksideOver<T> {
    /// What is known as a life begins, with the national values that were kept. Takes no memory.
    pub fn new(alloc: Global, kept: CountryValues) -> Self
        ensures stands { StandsForLife T.stores result (record { kept = kept; entries = [] }) }
        ensures size { size_in T.stores result ≡ 0 }
    {
        TracksideOver {
            parts: Parts::new(kept),
            restrictions: Restrictions::new(alloc),
            gradients: T::Gradients::empty(alloc),
            speeds: T::Speeds::empty(alloc),
        }
    }

    /// An equal value; NoMemory where memory is refused. None is taken where no restriction and no profile is kept, nor
    /// space for one.
    pub fn copy(&self, alloc: Global) -> Result<Self, NoMemory>
        ensures value { IfOk result (λ copy. copy ≡ self.now) }
        ensures quiet { size_in T.stores self.now ≡ 0 → IsOk result }
    {
        Ok(TracksideOver {
            parts: self.parts.copy(),
            restrictions: self.restrictions.copy(alloc)?,
            gradients: self.gradients.copy(alloc)?,
            speeds: self.speeds.copy(alloc)?,
        })
    }
}
