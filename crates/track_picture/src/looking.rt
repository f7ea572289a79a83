//! What is seen of the train once the groups of an event are used, and what is forgotten at its end.
ghost use Rattle.std.specs.Prelude.{◌≡◌, ◌≤◌, None, Some, ◌∷◌, IsTrue};
ghost use Rattle.units.specs.Limits.{HasReach};
ghost use Rattle.areas.specs.Levels.{coming};
ghost use Rattle.track_picture.specs.Entry.{TrackEntry};
ghost use Rattle.track_picture.specs.History.{announced_level};
ghost use Rattle.track_picture.specs.Sentences.{span_with, forgetting_mark};
ghost use Rattle.track_picture.specs.StandsFor.{Life, StandsForLife, grown, size_in};
ghost use Rattle.track_picture.specs.Columns.{TrackReports, StandsForColumns, known_by, after_look};
ghost use Rattle.track_picture.specs.Still.{IsStill};

use crate::parts::Parts;
use crate::state::TracksideOver;
use crate::stores::ProfileStores;
use mode_table::TrainLevel;
use track_store::ProfileStore;
use units::{Cm, Length, Stretch};

/// How much track behind the minimum safe rear isn't forgotten, in centimetres.
const REMEMBERED: i64 = 100_000;

// The track before this place is forgotten, where the train covers this stretch.
fn forgetting_mark(train: &Stretch) -> Cm
    requires { HasReach train.now.rear }
    ensures { result ≡ forgetting_mark train.now }
{
    Cm::new_unchecked(train.rear().get() - REMEMBERED)
}

impl Parts {
    // The authority's timers see where the train is, and national values and the level come into force where the
    // maximum safe front has reached their places.
    #[inline(always)]
    fn look(&mut self, train: &Stretch) -> Option<TrainLevel>
        ensures level { result ≡ coming train.now.max_front self.old.level }
        ensures stands { (life : Life) (reported : TrackReports) → self.old ≡ known_by life reported → self.new ≡ known_by life (after_look train.now reported) }
    {
        self.authority.pass(train);
        self.national.reach(train.max_front());
        self.level.reach(train.max_front())
    }

    // Whether nothing that is known may come.
    #[inline(always)]
    fn is_still(&self) -> bool
        ensures { IsTrue result → IsStill self.now }
    {
        self.areas.as_slice().is_empty()
            && self.level.announced().is_none()
            && !self.national.is_waiting()
            && self.authority.is_untimed()
    }
}

impl<T: ProfileStores> TracksideOver<T> {
    /// The look at a train of some length (0 where it isn't known), once an event: the authority's timers see where it
    /// is, and national values and the level that are announced come into force where the maximum safe front has
    /// reached their places. Answers the level that does.
    pub fn look(&mut self, length: Length) -> Option<TrainLevel>
        ensures level { (life : Life) (event : TrackEntry)
            → (let now = grown life (record event { train = None; entered = None }) in
            StandsForLife T.stores self.old now → result ≡ coming (span_with length now.entries).max_front (announced_level now.entries)) }
        ensures stands { (life : Life) (event : TrackEntry)
            → (let now = grown life (record event { train = None; entered = None }) in
            StandsForLife T.stores self.old now
            → StandsForLife T.stores self.new (grown life (record event { train = Some (span_with length now.entries); entered = None }))) }
        ensures size { size_in T.stores self.new ≡ size_in T.stores self.old }
    {
        let stretch = self.parts.place.stretch(length);
        self.parts.look(&stretch)
    }

    /// Whether nothing that is known may come: no mode area is stored, no level and no national values are announced,
    /// and no time of the authority runs (SUBSET-026, 3.8, 3.12.4, 3.18.2 and 5.10). Then a look changes nothing.
    pub fn is_still(&self) -> bool
        ensures { IsTrue result → IsStill self.now.parts }
    {
        self.parts.is_still()
    }

    // The track before a place is forgotten. Where the forgetting mark stays, both profiles have nothing before it.
    fn forget_before(&mut self, mark: Cm)
        ensures stands { (life : Life) (event : TrackEntry) → StandsForColumns T.stores self.old (grown life (record event { mark = None }))
            → StandsForColumns T.stores self.new (grown life (record event { mark = Some mark })) }
        ensures parts { self.new.parts ≡ self.old.parts }
        ensures size { size_in T.stores self.new ≤ size_in T.stores self.old }
    {
        let moves = self.restrictions.mark() < mark;
        self.restrictions.drop_behind(mark);
        if moves {
            self.gradients.drop_behind(mark);
            self.speeds.drop_behind(mark);
        }
    }

    /// The end of an event, as `forget`, for a train that covers this stretch.
    pub fn forget_passed(&mut self, train: &Stretch)
        requires { HasReach train.now.rear }
        ensures stands { (life : Life) (event : TrackEntry)
            → StandsForLife T.stores self.old (grown life (record event { mark = None }))
            → StandsForLife T.stores self.new (grown life (record event { mark = Some (forgetting_mark train.now) })) }
        ensures parts { self.new.parts ≡ self.old.parts }
        ensures size { size_in T.stores self.new ≤ size_in T.stores self.old }
    {
        self.forget_before(forgetting_mark(train));
    }

    /// The end of an event, for a train of some length (0 where it isn't known): the track is forgotten that lies more
    /// than a kilometre behind its minimum safe rear.
    pub fn forget(&mut self, length: Length)
        ensures stands { (life : Life) (event : TrackEntry)
            → (let now = grown life (record event { mark = None }) in
            StandsForLife T.stores self.old now
            → StandsForLife T.stores self.new (grown life (record event { mark = Some (forgetting_mark (span_with length now.entries)) }))) }
        ensures size { size_in T.stores self.new ≤ size_in T.stores self.old }
    {
        let stretch = self.parts.place.stretch(length);
        self.forget_passed(&stretch);
    }
}
