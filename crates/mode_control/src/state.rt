//! The supervision of a train: as a life begins, copied, and what it says.
ghost use Rattle.std.specs.Prelude.{◌≡◌, ◌≤◌, [], IsOk, IfOk};
ghost use Rattle.events.specs.declared.kept.Kept.{Kept as KeptItems};
ghost use Rattle.mode_table.specs.declared.statuses.Cold.{Cold as ColdValue};
ghost use Rattle.mode_control.specs.Life.{Life, length_by};
ghost use Rattle.mode_control.specs.Sentences.{initial_life, span_of};
ghost use Rattle.mode_control.specs.StandsFor.{StandsForLife};
ghost use Rattle.track_picture.specs.StandsFor.{size_in};

use crate::parts::Parts;
use areas::Acknowledgement;
use driver::Driver;
use events::Kept;
use mode_table::{Cold, Mode};
use std::alloc::Global;
use std::marker::Model;
use track_picture::{ProfileStores, Segments, TracksideOver};
use units::{Length, NoMemory, Stretch};

/// The supervision of a train, with stores for the gradients and the static speeds (this project's profile).
#[derive(Drop)]
pub struct SupervisionOver<T: ProfileStores> {
    pub(crate) parts: Parts,
    pub(crate) track: TracksideOver<T>,
}

/// With stores that stay short however long the life.
pub type Supervision = SupervisionOver<Segments>;

impl<T: ProfileStores> Model for SupervisionOver<T> {
    ghost use Rattle.mode_control.specs.StandsFor.{Knowledge};

    ghost Value = { Knowledge T.Gradients T.Speeds };

    ghost view = { λ s. record { parts = s.parts; track = s.track } };
}

impl<T: ProfileStores> SupervisionOver<T> {
    /// What is known before the first event of a life, of what was kept. Takes no memory.
    pub fn new(alloc: Global, kept: Kept, cold: Cold) -> Self
        ensures stands { StandsForLife T.stores result (record { kept = kept; cold = cold; entries = [] }) }
        ensures size { size_in T.stores result.track ≡ 0 }
    {
        SupervisionOver {
            parts: Parts::new(&kept, cold),
            track: TracksideOver::new(alloc, kept.national),
        }
    }

    /// A life begins with what was kept; what is known of movements while the power was off decides what of it stays
    /// valid. Takes no memory.
    pub fn power_up(alloc: Global, kept: Kept, cold: Cold) -> Self
        ensures stands { StandsForLife T.stores result (initial_life kept cold) }
        ensures size { size_in T.stores result.track ≡ 0 }
    {
        let mut initial = SupervisionOver::new(alloc, kept, cold);
        initial.set_out();
        initial
    }

    /// The life begins of which only what was kept is known (`new`): the track is forgotten that lies too far behind
    /// the train. Takes no memory.
    pub fn set_out(&mut self)
        ensures stands { (kept : KeptItems) (cold : ColdValue)
            → StandsForLife T.stores self.old (record { kept = kept; cold = cold; entries = [] })
            → StandsForLife T.stores self.new (initial_life kept cold) }
        ensures size { size_in T.stores self.new.track ≤ size_in T.stores self.old.track }
    {
        self.track.forget(self.parts.length());
    }

    /// Where the train is: from the minimum safe rear to the maximum safe front.
    pub fn stretch(&self) -> Stretch
        ensures { (life : Life) → StandsForLife T.stores self.now life → result ≡ span_of life }
    {
        self.track.place().stretch(self.parts.length())
    }

    /// An equal value; NoMemory where it is refused. None is taken where no restriction and no profile is kept, nor
    /// space for one.
    pub fn copy(&self, alloc: Global) -> Result<Self, NoMemory>
        ensures value { IfOk result (λ copy. copy ≡ self.now) }
        ensures quiet { size_in T.stores self.now.track ≡ 0 → IsOk result }
    {
        Ok(SupervisionOver {
            parts: self.parts,
            track: self.track.copy(alloc)?,
        })
    }
}

impl<T: ProfileStores> SupervisionOver<T> {
    /// What the track sent.
    pub fn track(&self) -> &TracksideOver<T>
        ensures { result.now ≡ self.now.track }
    {
        &self.track
    }

    /// The mode.
    pub fn mode(&self) -> Mode
        ensures { result ≡ self.now.parts.mode }
    {
        self.parts.mode
    }

    /// The driver's data.
    pub fn driver(&self) -> &Driver
        ensures { result.now ≡ self.now.parts.driver }
    {
        &self.parts.driver
    }

    /// The acknowledgement of On Sight.
    pub fn on_sight(&self) -> Acknowledgement
        ensures { result ≡ self.now.parts.on_sight }
    {
        self.parts.on_sight
    }

    /// The acknowledgement of Shunting.
    pub fn shunting(&self) -> Acknowledgement
        ensures { result ≡ self.now.parts.shunting }
    {
        self.parts.shunting
    }

    /// The acknowledgement of level 0.
    pub fn level_0(&self) -> Acknowledgement
        ensures { result ≡ self.now.parts.level_0 }
    {
        self.parts.level_0
    }

    /// The length of the train, in centimetres; 0 where its data aren't valid.
    pub fn length(&self) -> Length
        ensures { result ≡ length_by self.now.parts.driver.train_data }
    {
        self.parts.length()
    }
}
