//! The look at the train, once the groups of an event are used.
ghost use Rattle.std.specs.Prelude.{◌≡◌, List, ◌∷◌, Option, None};
ghost use Rattle.driver.specs.declared.kept.Kept.{Kept as DriverKept};
ghost use Rattle.driver.specs.Entries.{DriverEntry};
ghost use Rattle.driver.specs.Known.{known};
ghost use Rattle.units.specs.Stretches.{Span};
ghost use Rattle.track_picture.specs.Entry.{TrackEntry};
ghost use Rattle.mode_control.specs.declared.deed.Deed.{Deed};
ghost use Rattle.mode_control.specs.Entry.{SupervisionEntry, initial};
ghost use Rattle.mode_control.specs.History.{after_level, tracks};
ghost use Rattle.mode_control.specs.Life.{Life, grown};
ghost use Rattle.mode_control.specs.Sentences.{span_of, level_in, the_train_is_seen};
ghost use Rattle.mode_control.specs.StandsFor.{StandsForLife, parts_of};
ghost use Rattle.track_picture.specs.Sentences.{span_with};
ghost use Rattle.track_picture.specs.StandsFor.{size_in};
ghost use Rattle.units.specs.Limits.{HasReach};

use crate::parts::Parts;
use crate::state::SupervisionOver;
use driver::Driver;
use mode_table::TrainLevel;
use track_picture::ProfileStores;
use units::{Length, Stretch};

/// What was seen of the train.
#[derive(Clone, Copy)]
pub struct Seen {
    /// Where it is.
    pub train: Stretch,
    /// The length of the train with which it was seen, in centimetres.
    pub length: Length,
    /// The announced level that came into force.
    pub level: Option<TrainLevel>,
}

fn come_in(driver: &mut Driver, level: &Option<TrainLevel>)
    ensures { (kept : DriverKept) (entries : List DriverEntry) → driver.old ≡ known kept entries → driver.new ≡ known kept (after_level level.now entries) }
{
    if let Some(level) = level {
        driver.come_in(*level);
    }
}

impl Parts {
    // An announced level comes into force, if one does.
    fn come_in(&mut self, level: &Option<TrainLevel>)
        ensures { (life : Life) (reported : TrackEntry) (train : Option Span) (deed : Option Deed)
            → self.old ≡ parts_of (grown life (initial (record reported { entered = None }) deed))
            → self.new ≡ parts_of (grown life (record (initial (record reported { train = train; entered = None }) deed) { level = level.now })) }
    {
        come_in(&mut self.driver, level);
    }
}

impl<T: ProfileStores> SupervisionOver<T> {
    /// The look at the train: what is announced comes into force where the maximum safe front has reached its place.
    pub(crate) fn see(&mut self) -> Seen
        ensures train { (life : Life) (event : SupervisionEntry) → StandsForLife T.stores self.old (grown life event)
            → result.train ≡ span_of (grown life event) }
        ensures length { (life : Life) (event : SupervisionEntry) → StandsForLife T.stores self.old (grown life event)
            → result.train ≡ span_with result.length (event.track ∷ tracks life.entries) }
        ensures near { HasReach result.train.rear }
        ensures level { (life : Life) (reported : TrackEntry) (deed : Option Deed)
            → (let event = initial (record reported { train = None; entered = None }) deed in
            StandsForLife T.stores self.old (grown life event) → result.level ≡ level_in (grown life event)) }
        ensures stands { (life : Life) (reported : TrackEntry) (deed : Option Deed)
            → (let event = initial (record reported { train = None; entered = None }) deed in
            StandsForLife T.stores self.old (grown life event)
            → StandsForLife T.stores self.new (grown life (the_train_is_seen (grown life event) event))) }
        ensures size { size_in T.stores self.new.track ≡ size_in T.stores self.old.track }
    {
        let length = self.parts.length();
        let train = self.track.place().stretch(length);
        let level = self.track.look(length);
        self.parts.come_in(&level);
        Seen {
            train,
            length,
            level,
        }
    }
}
