//! What the rows of the mode table ask for.
ghost use Rattle.std.specs.Prelude.{◌≡◌, Bool, false, is_some, IsTrue, []};
ghost use Rattle.mode_table.specs.declared.conditions.Conditions.{Conditions as Requested};
ghost use Rattle.mode_table.specs.Rows.{next_mode};
ghost use Rattle.track_picture.specs.History.{areas_of};
ghost use Rattle.track_picture.specs.StandsFor.{Life as TrackLife, parts_of as track_parts_of};
ghost use Rattle.units.specs.Stretches.{Span};
ghost use Rattle.mode_control.specs.Conditions.{calm, is_level_0, is_level_1, is_full_to, is_full, is_overridden, left_of_override, is_beyond, is_beyond_end, trips, is_beyond_staff_distance, is_start, is_shunting_choice, is_leaving, is_override, is_desk_closing, is_trip_acknowledging, conditions};
ghost use Rattle.mode_control.specs.History.{tracks, mode_of};
ghost use Rattle.mode_control.specs.Life.{Life};
ghost use Rattle.mode_control.specs.StandsFor.{StandsForLife};

use crate::knowing::is_known;
use crate::state::SupervisionOver;
use authority::End;
use driver::{Acknowledged, Action, Datum, OverrideLeft};
use mode_table::{Conditions, Mode, TrainLevel, next_mode};
use track_picture::{ProfileStores, TracksideOver};
use units::{Cm, Stretch};
use vars::AreaMode;

fn is_level_0(level: &Datum<TrainLevel>) -> bool
    ensures { result ≡ is_level_0 level.now }
{
    matches!(level, Datum::Valid(TrainLevel::Level0))
}

fn is_level_1(level: &Datum<TrainLevel>) -> bool
    ensures { result ≡ is_level_1 level.now }
{
    matches!(level, Datum::Valid(TrainLevel::Level1))
}

fn is_start(done: &Option<Action>) -> bool
    ensures { result ≡ is_start done.now }
{
    matches!(done, Some(Action::Start))
}

/// Whether the driver's choice of Shunting was accepted.
pub fn is_shunting_choice(done: &Option<Action>) -> bool
    ensures { result ≡ is_shunting_choice done.now }
{
    matches!(done, Some(Action::ChooseShunting))
}

fn is_leaving(done: &Option<Action>) -> bool
    ensures { result ≡ is_leaving done.now }
{
    matches!(done, Some(Action::LeaveShunting))
}

fn is_override(done: &Option<Action>) -> bool
    ensures { result ≡ is_override done.now }
{
    matches!(done, Some(Action::Override))
}

fn is_desk_closing(done: &Option<Action>) -> bool
    ensures { result ≡ is_desk_closing done.now }
{
    matches!(done, Some(Action::CloseDesk))
}

fn is_trip_acknowledging(done: &Option<Action>) -> bool
    ensures { result ≡ is_trip_acknowledging done.now }
{
    matches!(done, Some(Action::Acknowledge(Acknowledged::Trip)))
}

// Whether rows of the mode table that start from a mode may ask for the track ahead to be known up to the end of
// authority.
fn asks_for_full(mode: Mode) -> bool
    ensures { result ≡ false → (c : Requested) (full : Bool) → next_mode mode (record c { full = full }) ≡ next_mode mode c }
{
    matches!(
        mode,
        Mode::OnSight | Mode::StaffResponsible | Mode::Unfitted | Mode::StandBy
    )
}

// Whether only what the driver does leads on from a mode, or an overrun.
fn waits_for_driver(mode: Mode) -> bool
    ensures { IsTrue result → (c : Requested) → next_mode mode (calm c) ≡ mode }
{
    matches!(
        mode,
        Mode::StandBy | Mode::Shunting | Mode::Trip | Mode::PostTrip | Mode::SystemFailure
    )
}

// Whether a mode stays where, besides, the train isn't tripped, the level isn't 0 and no area is met.
fn is_full_supervision(mode: Mode) -> bool
    ensures { IsTrue result → (c : Requested) → next_mode mode (record (calm c) { trip = false; level_0 = false; on_sight_area = false; shunting_area = false }) ≡ mode }
{
    matches!(mode, Mode::FullSupervision)
}

// Whether a mode stays where, besides, the train isn't tripped and hasn't run too far, the level isn't 0, and the track
// ahead isn't known.
fn is_staff_responsible(mode: Mode) -> bool
    ensures { IsTrue result → (c : Requested) → next_mode mode (record (calm c) { trip = false; beyond_staff_distance = false; level_0 = false; full = false }) ≡ mode }
{
    matches!(mode, Mode::StaffResponsible)
}

// Whether the minimum safe front is above the end of authority while no speed is allowed there.
fn is_beyond(min_front: Cm, end: &End) -> bool
    ensures { result ≡ is_beyond min_front end.now }
{
    end.place < min_front && end.speed.get() == 0
}

/// Whether no area is stored.
pub fn has_no_area<T: ProfileStores>(track: &TracksideOver<T>) -> bool
    ensures { (life : TrackLife) → track.now.parts ≡ track_parts_of life → IsTrue result → areas_of life.entries ≡ [] }
{
    track.areas().as_slice().is_empty()
}

impl<T: ProfileStores> SupervisionOver<T> {
    // Whether the track ahead is known up to the end of authority.
    fn is_full_to(&self, front: Cm, end: &End) -> bool
        ensures { (life : Life) → StandsForLife T.stores self.now life → result ≡ is_full_to life front end.now }
    {
        front < end.place
            && is_known(self.track.speeds(), front, end.place)
            && is_known(self.track.gradients(), front, end.place)
    }

    // Whether an authority is stored, and the track ahead is known up to its end.
    fn is_full(&self, train: &Stretch) -> bool
        ensures { (life : Life) → StandsForLife T.stores self.now life → result ≡ is_full life train.now }
    {
        match self.track.authority().end() {
            None => false,
            Some(end) => self.is_full_to(train.max_front(), &end),
        }
    }

    /// Whether the trip is overridden.
    pub fn is_overridden(&self) -> bool
        ensures { (life : Life) → StandsForLife T.stores self.now life → result ≡ is_overridden life }
    {
        let path = self.track.place().sums().path();
        self.parts.driver.is_overridden(self.track.moment(), path)
    }

    /// What is left of an override: None exactly where the trip isn't overridden (SUBSET-026, 5.8).
    pub fn override_left(&self) -> Option<OverrideLeft>
        ensures left { (life : Life) → StandsForLife T.stores self.now life → result ≡ left_of_override life }
        ensures exact { (life : Life) → StandsForLife T.stores self.now life → is_some result ≡ is_overridden life }
    {
        let path = self.track.place().sums().path();
        self.parts.driver.override_left(self.track.moment(), path)
    }

    /// Whether the minimum safe front is above the end of authority while no speed is allowed there.
    pub(crate) fn is_beyond_end(&self, train: &Stretch) -> bool
        ensures { (life : Life) → StandsForLife T.stores self.now life → result ≡ is_beyond_end life train.now }
    {
        match self.track.authority().end() {
            None => false,
            Some(end) => is_beyond(train.min_front(), &end),
        }
    }

    /// Whether the train is to be tripped.
    pub(crate) fn trips(&self, train: &Stretch) -> bool
        ensures { (life : Life) → StandsForLife T.stores self.now life → result ≡ trips life train.now }
    {
        !self.is_overridden()
            && (self.is_beyond_end(train)
                || self.track.happened().requested.trip
                || self.track.is_stopped())
    }

    // Whether the train has run too far in Staff Responsible.
    fn is_beyond_staff_distance(&self) -> bool
        ensures { (life : Life) → StandsForLife T.stores self.now life → result ≡ is_beyond_staff_distance life }
    {
        match self.track.national().values().staff_responsible_distance {
            None => false,
            Some(distance) => {
                let end = self.parts.staff_from.get() + u64::from(distance.get());
                end < self.track.place().sums().path().get()
            }
        }
    }

    // All conditions, where the train is there, but whether the track ahead is known, which is reported.
    fn conditions(&self, full: bool, train: &Stretch) -> Conditions
        ensures { (life : Life) → StandsForLife T.stores self.now life → result ≡ record (conditions life train.now) { full = full } }
    {
        let level = self.parts.driver.level();
        let done = &self.parts.done;
        Conditions {
            overrun: self.track.happened().overrun,
            desk_closed: is_desk_closing(done),
            trip: self.trips(train),
            beyond_staff_distance: self.is_beyond_staff_distance(),
            level_0: is_level_0(&level),
            level_1: is_level_1(&level),
            full,
            on_sight_area: self.track.areas().is_met(AreaMode::OnSight, train),
            shunting_area: self.track.areas().is_met(AreaMode::Shunting, train),
            trip_acknowledged: is_trip_acknowledging(done),
            override_accepted: is_override(done),
            shunting_chosen: is_shunting_choice(done),
            shunting_left: is_leaving(done),
            started: is_start(done),
        }
    }

    // Whether the driver did nothing in the event, and no movement led too far.
    fn is_calm(&self) -> bool
        ensures { (life : Life) (train : Span) → StandsForLife T.stores self.now life → IsTrue result → conditions life train ≡ calm (conditions life train) }
    {
        self.parts.done.is_none() && !self.track.happened().overrun
    }

    // Whether the train isn't to be tripped, and the level isn't 0.
    fn runs_on(&self, train: &Stretch) -> bool
        ensures { (life : Life) → StandsForLife T.stores self.now life → IsTrue result
            → ((conditions life train.now).trip ≡ false) × ((conditions life train.now).level_0 ≡ false) }
    {
        !is_level_0(&self.parts.driver.level()) && !self.trips(train)
    }

    // Whether the train hasn't run too far in Staff Responsible, and the track ahead isn't known.
    fn stays_responsible(&self, train: &Stretch) -> bool
        ensures { (life : Life) → StandsForLife T.stores self.now life → IsTrue result
            → ((conditions life train.now).beyond_staff_distance ≡ false) × ((conditions life train.now).full ≡ false) }
    {
        !self.is_beyond_staff_distance() && !self.is_full(train)
    }

    /// Whether the mode stays, as a few looks show. Where they don't it may stay all the same.
    pub(crate) fn stays(&self, train: &Stretch) -> bool
        ensures { (life : Life) → StandsForLife T.stores self.now life → IsTrue result
            → next_mode (mode_of life.entries) (conditions life train.now) ≡ mode_of life.entries }
    {
        if !self.is_calm() {
            return false;
        }
        let mode = self.parts.mode;
        if waits_for_driver(mode) {
            return true;
        }
        if !self.runs_on(train) {
            return false;
        }
        if is_full_supervision(mode) {
            return has_no_area(&self.track);
        }
        if is_staff_responsible(mode) {
            return self.stays_responsible(train);
        }
        false
    }

    // Whether the train isn't to be tripped before the end of authority, and the level isn't 0.
    fn is_untripped(&self) -> bool
        ensures { (life : Life) (train : Span) → StandsForLife T.stores self.now life → is_beyond_end life train ≡ false → IsTrue result
            → ((conditions life train).trip ≡ false) × ((conditions life train).level_0 ≡ false) }
    {
        !is_level_0(&self.parts.driver.level())
            && !self.track.happened().requested.trip
            && !self.track.is_stopped()
    }

    // Whether Full Supervision stays before the end of authority, where no area is known.
    fn stays_full(&self) -> bool
        ensures { (life : Life) (train : Span) → StandsForLife T.stores self.now life → areas_of (tracks life.entries) ≡ []
            → is_beyond_end life train ≡ false → IsTrue result
            → next_mode (mode_of life.entries) (conditions life train) ≡ mode_of life.entries }
    {
        if !self.is_calm() {
            return false;
        }
        let mode = self.parts.mode;
        if !is_full_supervision(mode) {
            return false;
        }
        self.is_untripped()
    }

    /// Whether the mode stays where no area is known, as a few looks show; before the end of authority fewer are needed.
    /// Where they don't it may stay all the same.
    pub(crate) fn keeps_mode(&self, train: &Stretch, before_end: bool) -> bool
        ensures { (life : Life) → StandsForLife T.stores self.now life → areas_of (tracks life.entries) ≡ []
            → (IsTrue before_end → is_beyond_end life train.now ≡ false) → IsTrue result
            → next_mode (mode_of life.entries) (conditions life train.now) ≡ mode_of life.entries }
    {
        if before_end && self.stays_full() {
            return true;
        }
        self.stays(train)
    }

    /// The mode after the event, where the train is there. Whether the track ahead is known up to the end of authority
    /// is looked for only where rows ask for it: in Full Supervision none does.
    pub(crate) fn mode_beyond(&self, train: &Stretch) -> Mode
        ensures { (life : Life) → StandsForLife T.stores self.now life → result ≡ next_mode (mode_of life.entries) (conditions life train.now) }
    {
        let mode = self.parts.mode;
        let full = asks_for_full(mode) && self.is_full(train);
        next_mode(mode, &self.conditions(full, train))
    }
}
