//! What an input does, sentence by sentence in the order of one event.
ghost use Rattle.std.specs.Prelude.{◌≡◌, ◌≤◌, ◌∷◌, true, false, IsOk, IsTrue, IsSome, IfOk, IfSome, OnOk, OnErr, Option, None, []};
ghost use Rattle.units.specs.Limits.{HasReach};
ghost use Rattle.track_picture.specs.Sentences.{span_with};
ghost use Rattle.mode_control.specs.History.{tracks};
ghost use Rattle.track_picture.specs.Entry.{TrackEntry};
ghost use Rattle.track_picture.specs.StandsFor.{size_in};
ghost use Rattle.track_picture.specs.Still.{SameAhead, closes_none};
ghost use Rattle.track_picture.specs.Steps.{packets_by, HasSpaceFor};
ghost use Rattle.mode_control.specs.Conditions.{is_beyond_end};
ghost use Rattle.mode_control.specs.declared.deed.Deed.{Deed};
ghost use Rattle.mode_control.specs.Entry.{SupervisionEntry, initial};
ghost use Rattle.mode_control.specs.Life.{Life, grown};
ghost use Rattle.mode_control.specs.Sentences.{reported, deed_of, span_of, passed_track_is_forgotten, sentences, written};
ghost use Rattle.mode_control.specs.StandsFor.{StandsForLife};
ghost use Rattle.mode_control.specs.Still.{IsStill};

use crate::seeing::Seen;
use crate::state::SupervisionOver;
use events::Input;
use track_picture::ProfileStores;
use units::{Cm, NoMemory, Stretch};

// How far a place may be, in centimetres, so that each distance of a packet leads from it to a place: the outermost place
// less the greatest distance.
const MOST_WITH_REACH: u64 = (1 << 42) - 32_767_000;

// Whether each distance of a packet leads from a place to a place.
fn has_reach(place: Cm) -> bool
    ensures { IsTrue result → HasReach place }
{
    place.get().unsigned_abs() <= MOST_WITH_REACH
}

impl<T: ProfileStores> SupervisionOver<T> {
    /// An event begins: what the input itself brings, and the groups that it closes. Where memory is refused, nothing
    /// changes; none is refused where there is space for what the input may use. An input that uses no packet keeps no more
    /// track. Answers whether a group closes. `finish` ends the event.
    pub fn begin(&mut self, input: &Input) -> Result<bool, NoMemory>
        ensures quiet { HasSpaceFor T.stores self.old.track input.now → IsOk result }
        ensures idle { packets_by self.old.track.parts input.now ≡ 0 → OnOk result (size_in T.stores self.new.track ≡ size_in T.stores self.old.track) }
        ensures stands { OnOk result ((life : Life) → StandsForLife T.stores self.old life
            → StandsForLife T.stores self.new (grown life (initial (reported life input.now) (deed_of life input.now)))) }
        ensures none { IfOk result (λ closes. (life : Life) → StandsForLife T.stores self.old life → closes ≡ false
            → (reported life input.now).used.groups ≡ []) }
        ensures kept { closes_none self.old.track.parts input.now ≡ true → OnOk result
            ((self.new.parts ≡ record self.old.parts { done = None }) × SameAhead self.old.track.parts self.new.track.parts) }
        ensures err { OnErr result (self.new ≡ self.old) }
    {
        let deed = self.deed(input);
        let mode = self.mode();
        let closes = self.track.receive(mode, input)?;
        self.parts.note(&deed);
        Ok(closes)
    }

    // The track far behind the train is forgotten. Where the train was seen counts while it has the same length.
    fn forget(&mut self, seen: &Seen)
        requires { HasReach seen.now.train.rear }
        ensures stands { (life : Life) (event : SupervisionEntry)
            → StandsForLife T.stores self.old (grown life (record event { track = record event.track { mark = None } }))
            → seen.now.train ≡ span_with seen.now.length (event.track ∷ tracks life.entries)
            → StandsForLife T.stores self.new (grown life (passed_track_is_forgotten (grown life event) event)) }
        ensures size { size_in T.stores self.new.track ≤ size_in T.stores self.old.track }
    {
        let length = self.parts.length();
        let same = length == seen.length;
        if same {
            self.track.forget_passed(&seen.train);
        } else {
            self.track.forget(length);
        }
    }

    // Ends an event that has begun, sentence by sentence.
    fn finish_all(&mut self)
        ensures stands { (life : Life) (reported : TrackEntry) (deed : Option Deed)
            → (let event = initial (record reported { train = None; entered = None; mark = None }) deed in
            StandsForLife T.stores self.old (grown life event)
            → StandsForLife T.stores self.new (grown life (written sentences life event))) }
        ensures size { size_in T.stores self.new.track ≤ size_in T.stores self.old.track }
    {
        let seen = self.see();
        self.turn(&seen);
        self.forget(&seen);
    }

    // The same where nothing comes, for a train that is there. False where the mode may change; then nothing is done.
    fn finish_still(&mut self, train: &Stretch, before_end: bool) -> bool
        ensures stands { (life : Life) (reported : TrackEntry) (deed : Option Deed)
            → (let event = initial (record reported { train = None; entered = None; mark = None }) deed in
            let seen = grown life event in
            StandsForLife T.stores self.old seen → IsStill self.old → train.now ≡ span_of seen
            → (IsTrue before_end → is_beyond_end seen train.now ≡ false)
            → IsTrue result → StandsForLife T.stores self.new (grown life (written sentences life event))) }
        ensures kept { (self.new.parts ≡ self.old.parts) × (self.new.track.parts ≡ self.old.track.parts) }
        ensures size { size_in T.stores self.new.track ≤ size_in T.stores self.old.track }
        ensures refused { result ≡ false → self.new ≡ self.old }
    {
        if !has_reach(train.rear()) || !self.keeps_mode(train, before_end) {
            return false;
        }
        self.track.forget_passed(train);
        true
    }

    /// Ends an event that has begun: the train is seen, the mode changes, what is called for is settled, and passed track is
    /// forgotten. Where nothing comes the caller may hand in where the train is, and whether that is before the end of
    /// authority; then a few looks can be enough. Answers whether they were. The caller owes that both are true.
    pub fn finish(&mut self, still: &Option<Stretch>, before_end: bool) -> bool
        ensures stands { (life : Life) (reported : TrackEntry) (deed : Option Deed)
            → (let event = initial (record reported { train = None; entered = None; mark = None }) deed in
            let seen = grown life event in
            StandsForLife T.stores self.old seen
            → IfSome still.now (λ train. IsStill self.old × (train ≡ span_of seen) × (IsTrue before_end → is_beyond_end seen train ≡ false))
            → StandsForLife T.stores self.new (grown life (written sentences life event))) }
        ensures kept { IsTrue result → IsSome still.now × (self.new.parts ≡ self.old.parts) × (self.new.track.parts ≡ self.old.track.parts) }
        ensures size { size_in T.stores self.new.track ≤ size_in T.stores self.old.track }
    {
        if let Some(train) = still
            && self.finish_still(train, before_end)
        {
            return true;
        }
        self.finish_all();
        false
    }
}
