//! The change of mode, and the acknowledgements.
ghost use Rattle.std.specs.Prelude.{◌≡◌, ◌≤◌, IsTrue, Option, None, Some, List, [], ◌∷◌, if◌then◌else◌};
ghost use Rattle.areas.specs.declared.acknowledgement.Acknowledgement.TheVariants.{Nothing};
ghost use Rattle.driver.specs.declared.kept.Kept.{Kept as DriverKept};
ghost use Rattle.driver.specs.Entries.{DriverEntry};
ghost use Rattle.driver.specs.Known.{known};
ghost use Rattle.track_picture.specs.Entry.{TrackEntry};
ghost use Rattle.track_picture.specs.History.{place_of, areas_of, announced_level};
ghost use Rattle.track_picture.specs.StandsFor.{Life as TrackLife, StandsForLife as StandsForTrack, parts_of as track_parts_of, grown as track_grown, size_in};
ghost use Rattle.mode_table.specs.declared.level.TrainLevel.{TrainLevel as Level};
ghost use Rattle.mode_control.specs.declared.deed.Deed.{Deed};
ghost use Rattle.mode_control.specs.Entry.{initial};
ghost use Rattle.mode_control.specs.History.{tracks, enters_staff, after_mode};
ghost use Rattle.mode_control.specs.Life.{Life, grown};
ghost use Rattle.mode_control.specs.Resting.{Rests};
ghost use Rattle.mode_control.specs.Sentences.{changed, entered_in, has_entered, mode_after, moment_where, is_coming_to_level_0, call_of_areas, call_of_level, calls_in, left_in, the_mode_changes, the_calls_are_settled, written};
ghost use Rattle.mode_control.specs.StandsFor.{StandsForLife, parts_of};
ghost use Rattle.mode_control.specs.Still.{IsStill};

use crate::acknowledging::answer;
use crate::calls::{Call, Calls, Left};
use crate::conditions::{has_no_area, is_shunting_choice};
use crate::parts::Parts;
use crate::seeing::Seen;
use crate::state::SupervisionOver;
use areas::Acknowledgement;
use driver::Driver;
use mode_table::{Mode, TrainLevel};
use track_picture::{ProfileStores, TracksideOver};
use units::{Length, Ms, Stretch};
use vars::AreaMode;

// The mode that is entered, if it is another one.
fn changed(old: Mode, new: Mode) -> Option<Mode>
    ensures { result ≡ changed old new }
{
    if old.number() == new.number() {
        None
    } else {
        Some(new)
    }
}

fn has_entered(mode: Mode, entered: &Option<Mode>) -> bool
    ensures { result ≡ has_entered mode entered.now }
{
    match entered {
        None => false,
        Some(other) => other.number() == mode.number(),
    }
}

fn moment_where(turned: bool, moment: Ms) -> Option<Ms>
    ensures { result ≡ moment_where turned moment }
{
    if turned { Some(moment) } else { None }
}

fn is_coming_to_level_0(level: &Option<TrainLevel>) -> bool
    ensures { result ≡ is_coming_to_level_0 level.now }
{
    matches!(level, Some(TrainLevel::Level0))
}

fn mode_after(old: Mode, entered: &Option<Mode>) -> Mode
    ensures { result ≡ mode_after old entered.now }
{
    match entered {
        None => old,
        Some(mode) => *mode,
    }
}

// The path from which the distance in Staff Responsible counts.
fn staff_from(old: Length, entered: &Option<Mode>, path: Length) -> Length
    ensures { result ≡ (if enters_staff entered.now then path else old) }
{
    match entered {
        Some(Mode::StaffResponsible) => path,
        _ => old,
    }
}

fn turn_driver(driver: &mut Driver, entered: &Option<Mode>)
    ensures { (kept : DriverKept) (entries : List DriverEntry) → driver.old ≡ known kept entries → driver.new ≡ known kept (after_mode entered.now entries) }
{
    if let Some(mode) = entered {
        driver.turn(*mode);
    }
}

impl Parts {
    // A mode is entered, if another one is, at this path of the life; what is called for then, and what is left.
    #[inline(always)]
    fn turn(&mut self, entered: &Option<Mode>, path: Length, calls: &Calls, left: &Left)
        ensures { (life : Life) (reported : TrackEntry) (deed : Option Deed) (level : Option Level)
            → self.old ≡ parts_of (grown life (record (initial (record reported { entered = None }) deed) { level = level }))
            → path ≡ (place_of (reported ∷ tracks life.entries)).sums.path
            → self.new ≡ parts_of (grown life (record { track = record reported { entered = entered.now }; deed = deed; level = level; calls = calls.now; left = left.now })) }
    {
        turn_driver(&mut self.driver, entered);
        self.mode = mode_after(self.mode, entered);
        self.staff_from = staff_from(self.staff_from, entered, path);
        answer(&mut self.on_sight, &calls.on_sight, entered, left.on_sight);
        answer(&mut self.shunting, &calls.shunting, entered, left.shunting);
        answer(&mut self.level_0, &calls.level_0, entered, left.level_0);
    }
}

// What is left of what the track sent.
fn left_by<T: ProfileStores>(track: &TracksideOver<T>, train: &Stretch) -> Left
    ensures { (life : TrackLife) → track.now.parts ≡ track_parts_of life → result ≡ left_in life.entries train.now }
{
    let front = train.min_front();
    let areas = track.areas();
    Left {
        on_sight: areas.remains(AreaMode::OnSight, front),
        shunting: areas.remains(AreaMode::Shunting, front),
        level_0: track.level().remains(),
    }
}

// The track takes note of another mode that is entered.
fn enter<T: ProfileStores>(track: &mut TracksideOver<T>, entered: &Option<Mode>)
    ensures stands { (life : TrackLife) (event : TrackEntry)
        → StandsForTrack T.stores track.old (track_grown life (record event { entered = None }))
        → StandsForTrack T.stores track.new (track_grown life (record event { entered = entered.now })) }
    ensures size { size_in T.stores track.new ≤ size_in T.stores track.old }
{
    if let Some(mode) = entered {
        track.enter(*mode);
    }
}

// Whether nothing is asked for, done or owed.
fn is_nothing(acknowledgement: &Acknowledgement) -> bool
    ensures { IsTrue result → acknowledgement.now ≡ Nothing }
{
    matches!(acknowledgement, Acknowledgement::Nothing)
}

impl Parts {
    // Whether the driver has nothing to acknowledge.
    fn owes_nothing(&self) -> bool
        ensures { IsTrue result → (self.now.on_sight ≡ Nothing) × (self.now.shunting ≡ Nothing) × (self.now.level_0 ≡ Nothing) }
    {
        is_nothing(&self.on_sight) && is_nothing(&self.shunting) && is_nothing(&self.level_0)
    }
}

// Whether no area is stored, and no level is announced or came into force.
fn announces_nothing<T: ProfileStores>(track: &TracksideOver<T>, level: &Option<TrainLevel>) -> bool
    ensures { (life : TrackLife) → track.now.parts ≡ track_parts_of life → IsTrue result
        → (areas_of life.entries ≡ []) × (announced_level life.entries ≡ None) × (level.now ≡ None) }
{
    level.is_none() && track.level().announced().is_none() && has_no_area(track)
}

impl<T: ProfileStores> SupervisionOver<T> {
    /// Whether nothing comes: no area, level or national value is known that waits for its place, no timer of the authority
    /// runs, and the driver has nothing to acknowledge.
    pub fn is_still(&self) -> bool
        ensures { IsTrue result → IsStill self.now }
    {
        self.parts.owes_nothing() && self.track.is_still()
    }

    // Whether an event leaves all as it is: the mode stays, and nothing is called for, owed or left.
    fn rests(&self, seen: &Seen) -> bool
        ensures { (life : Life) → StandsForLife T.stores self.now life → IsTrue result → Rests life seen.now.train seen.now.level }
    {
        if !self.parts.owes_nothing() {
            return false;
        }
        if !announces_nothing(&self.track, &seen.level) {
            return false;
        }
        self.stays(&seen.train)
    }

    /// The mode that is entered, if another one is, where the train is there.
    pub(crate) fn entered(&self, train: &Stretch) -> Option<Mode>
        ensures { (life : Life) → StandsForLife T.stores self.now life → result ≡ entered_in life train.now }
    {
        changed(self.parts.mode, self.mode_beyond(train))
    }

    // What is called for by the areas of a kind that has its own mode.
    fn call_of_areas(
        &self,
        kind: AreaMode,
        mode: Mode,
        chosen: bool,
        train: &Stretch,
        entered: &Option<Mode>,
    ) -> Call
        ensures { (life : Life) → StandsForLife T.stores self.now life → result ≡ call_of_areas kind mode chosen life train.now entered.now }
    {
        let after = mode_after(self.parts.mode, entered);
        let holds = after.number() == mode.number();
        Call {
            turned: moment_where(has_entered(mode, entered) && !chosen, self.track.moment()),
            asks: self.track.areas().asks(kind, train) && !holds,
        }
    }

    // What is called for by the announcement of level 0.
    fn call_of_level(&self, seen: &Seen) -> Call
        ensures { (life : Life) → StandsForLife T.stores self.now life → result ≡ call_of_level life seen.now.train seen.now.level }
    {
        Call {
            turned: moment_where(is_coming_to_level_0(&seen.level), self.track.moment()),
            asks: self.track.level().asks(seen.train.max_front()),
        }
    }

    // What is called for, where this mode is entered.
    fn calls(&self, seen: &Seen, entered: &Option<Mode>) -> Calls
        ensures { (life : Life) → StandsForLife T.stores self.now life → result ≡ calls_in life seen.now.train seen.now.level entered.now }
    {
        let train = &seen.train;
        let chosen = is_shunting_choice(&self.parts.done);
        Calls {
            on_sight: self.call_of_areas(AreaMode::OnSight, Mode::OnSight, false, train, entered),
            shunting: self.call_of_areas(
                AreaMode::Shunting,
                Mode::Shunting,
                chosen,
                train,
                entered,
            ),
            level_0: self.call_of_level(seen),
        }
    }

    /// One row of the mode table, then the acknowledgements, and what the mode deletes that is entered.
    #[inline(always)]
    pub(crate) fn turn(&mut self, seen: &Seen)
        ensures stands { (life : Life) (reported : TrackEntry) (deed : Option Deed)
            → (let event = record (initial (record reported { train = Some seen.now.train; entered = None }) deed) { level = seen.now.level } in
            StandsForLife T.stores self.old (grown life event)
            → StandsForLife T.stores self.new (grown life (written (the_mode_changes ∷ the_calls_are_settled ∷ []) life event))) }
        ensures size { size_in T.stores self.new.track ≤ size_in T.stores self.old.track }
    {
        if self.rests(seen) {
            return;
        }
        let entered = self.entered(&seen.train);
        let calls = self.calls(seen, &entered);
        enter(&mut self.track, &entered);
        let left = left_by(&self.track, &seen.train);
        let path = self.track.place().sums().path();
        self.parts.turn(&entered, path, &calls, &left);
    }
}
