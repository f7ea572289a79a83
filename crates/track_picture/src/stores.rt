//! The two stores of the profiles as one parameter: all above is proved once, whatever keeps them.
ghost use Rattle.std.specs.Prelude.{◌≡◌, refl};
ghost use Rattle.track_picture.specs.Stores.{Stores, segment_stores, fact_stores};

use speed_profile::CategorySpeeds;
use track_store::{FactStore, ProfileStore, SegmentStore};
use units::Permille;

/// What keeps the gradients and the static speeds of the track (this project's profile).
pub trait ProfileStores {
    /// Keeps the gradients, in per mille.
    type Gradients: ProfileStore<Permille> + Drop;
    /// Keeps the static speeds.
    type Speeds: ProfileStore<CategorySpeeds> + Drop;

    ghost stores: { Stores Self.Gradients Self.Speeds };

    ghost stores_are: { stores ≡ record {
      gradients = Self.Gradients.profile;
      speeds = Self.Speeds.profile;
      gradients_space = Self.Gradients.space;
      speeds_space = Self.Speeds.space;
      gradients_size = Self.Gradients.size;
      speeds_size = Self.Speeds.size;
    } };
}

/// Stores that stay short however long the life.
pub struct Segments;

impl ProfileStores for Segments {
    type Gradients = SegmentStore<Permille>;

    type Speeds = SegmentStore<CategorySpeeds>;

    ghost stores = { segment_stores };

    ghost stores_are = { refl };
}

/// Stores that keep all that was reported.
pub struct Facts;

impl ProfileStores for Facts {
    type Gradients = FactStore<Permille>;

    type Speeds = FactStore<CategorySpeeds>;

    ghost stores = { fact_stores };

    ghost stores_are = { refl };
}
