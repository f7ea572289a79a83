//! The driver's data, as accepted actions, levels from the track and modes change them.
ghost use Rattle.std.specs.Prelude.{◌≡◌, List, ◌∷◌, [], is_some};
ghost use Rattle.driver.specs.Overriding.{is_active, override_left};
ghost use Rattle.driver.specs.Revalidating.{is_whole};
ghost use Rattle.driver.specs.Entries.{DriverEntry};
ghost use Rattle.driver.specs.Known.{known, kept_by};
ghost use Rattle.driver.specs.declared.kept.Kept.{Kept as KeptData};
ghost use Rattle.driver.specs.Entries.DriverEntry.{Did, LevelEntered, ModeEntered};

mod accepting;

use crate::revalidation::Revalidation;
use crate::{
    Acknowledged, Action, Confirmed, Datum, DriverIdentity, Kept, Occasion, OverrideLeft,
    RunningNumber, TrainData,
};
pub(crate) use accepting::needs;
use mode_table::{Fate, Item, Mode, TrainLevel, status_on};
use std::marker::Model;
use units::{Length, Ms};

/// The driver's data, and what the driver's actions brought about in one life (SUBSET-026, 4.10, 5.4).
#[derive(Clone, Copy)]
pub struct Driver {
    identity: Datum<DriverIdentity>,
    running_number: Datum<RunningNumber>,
    train_data: Datum<TrainData>,
    level: Datum<TrainLevel>,
    trip_outstanding: bool,
    overridden: Option<Occasion>,
    revalidation: Revalidation,
}

impl Model for Driver {
    ghost use Rattle.driver.specs.Known.{KnownItems};

    ghost Value = { KnownItems };

    ghost view = { λ d. record { identity = d.identity; running_number = d.running_number; train_data = d.train_data; level = d.level; trip_outstanding = d.trip_outstanding; overridden = d.overridden; revalidation = d.revalidation } };

    ghost inverse = { λ d. record { identity = d.identity; running_number = d.running_number; train_data = d.train_data; level = d.level; trip_outstanding = d.trip_outstanding; overridden = d.overridden; revalidation = d.revalidation } };
}

impl Driver {
    /// The driver of a life that begins with what was kept.
    pub fn new(kept: &Kept) -> Self
        ensures { result ≡ known kept.now [] }
    {
        Driver {
            identity: kept.identity,
            running_number: kept.running_number,
            train_data: kept.train_data,
            level: kept.level,
            trip_outstanding: kept.trip_outstanding,
            overridden: None,
            revalidation: Revalidation {
                identity: false,
                level: kept.level.is_valid(),
                train_data: false,
                started: false,
                shunting: false,
            },
        }
    }

    /// An action that `accepts` took is done, on an occasion. The caller owes that it was accepted.
    pub fn act(&mut self, action: &Action, occasion: &Occasion)
        ensures { (kept : KeptData) → (entries : List DriverEntry) → self.old ≡ known kept entries
            → self.new ≡ known kept (Did action.now occasion.now ∷ entries) }
    {
        match action {
            Action::EnterIdentity(identity) => {
                self.identity = Datum::Valid(*identity);
                self.revalidation.identity = true;
            }
            Action::Confirm(Confirmed::Identity) => {
                self.identity = self.identity.confirmed();
                self.revalidation.identity = true;
            }
            Action::EnterRunningNumber(number) => self.running_number = Datum::Valid(*number),
            Action::Confirm(Confirmed::RunningNumber) => {
                self.running_number = self.running_number.confirmed();
            }
            Action::EnterTrainData(train) => {
                self.train_data = Datum::Valid(*train);
                self.revalidation.train_data = true;
            }
            Action::Confirm(Confirmed::TrainData) => {
                self.train_data = self.train_data.confirmed();
                self.revalidation.train_data = true;
            }
            Action::ChooseLevel(level) => {
                self.level = Datum::Valid(*level);
                self.revalidation.level = true;
            }
            Action::Confirm(Confirmed::Level) => {
                self.level = self.level.confirmed();
                self.revalidation.level = true;
            }
            Action::Start => {
                let given = self.revalidation.train_data;
                self.revalidation.started = given || self.revalidation.started;
            }
            Action::ChooseShunting => self.revalidation.shunting = true,
            Action::Override => self.overridden = Some(*occasion),
            Action::Acknowledge(Acknowledged::Trip) => self.trip_outstanding = false,
            Action::Acknowledge(
                Acknowledged::OnSight | Acknowledged::Shunting | Acknowledged::Level0,
            )
            | Action::LeaveShunting
            | Action::CloseDesk => {}
        }
    }

    /// An announced level comes into force.
    pub fn come_in(&mut self, level: TrainLevel)
        ensures { (kept : KeptData) → (entries : List DriverEntry) → self.old ≡ known kept entries
            → self.new ≡ known kept (LevelEntered level ∷ entries) }
    {
        self.level = Datum::Valid(level);
    }

    /// A mode is entered: what the status table (SUBSET-026, 4.10) says of each item becomes so, and entering Trip
    /// makes a trip outstanding.
    pub fn turn(&mut self, mode: Mode)
        ensures { (kept : KeptData) → (entries : List DriverEntry) → self.old ≡ known kept entries
            → self.new ≡ known kept (ModeEntered mode ∷ entries) }
    {
        self.identity = self.identity.met_by(status_on(Item::Identity, mode));
        self.running_number = self
            .running_number
            .met_by(status_on(Item::RunningNumber, mode));
        self.train_data = self.train_data.met_by(status_on(Item::TrainData, mode));
        self.level = self.level.met_by(status_on(Item::Level, mode));
        if matches!(status_on(Item::Override, mode), Fate::Deleted) {
            self.overridden = None;
        }
        if matches!(mode, Mode::Trip) {
            self.trip_outstanding = true;
        }
    }

    /// The train data, with their status.
    pub fn train_data(&self) -> Datum<TrainData>
        ensures { result ≡ self.now.train_data }
    {
        self.train_data
    }

    /// The level, with its status.
    pub fn level(&self) -> Datum<TrainLevel>
        ensures { result ≡ self.now.level }
    {
        self.level
    }

    /// Whether a trip isn't acknowledged yet.
    pub fn is_trip_outstanding(&self) -> bool
        ensures { result ≡ self.now.trip_outstanding }
    {
        self.trip_outstanding
    }

    /// Whether the trip is overridden now: at a moment of the life, and at its path in centimetres (SUBSET-026, 5.8).
    pub fn is_overridden(&self, moment: Ms, path: Length) -> bool
        ensures { result ≡ is_active self.now.overridden moment path }
    {
        match &self.overridden {
            None => false,
            Some(occasion) => occasion.is_overridden(moment, path),
        }
    }

    /// What is left of an override at a moment of the life, and at its path in centimetres: None exactly where the trip
    /// isn't overridden (SUBSET-026, 5.8).
    pub fn override_left(&self, moment: Ms, path: Length) -> Option<OverrideLeft>
        ensures left { result ≡ override_left self.now.overridden moment path }
        ensures exact { is_some result ≡ is_active self.now.overridden moment path }
    {
        match &self.overridden {
            None => None,
            Some(occasion) if occasion.is_overridden(moment, path) => {
                Some(occasion.left(moment, path))
            }
            Some(_) => None,
        }
    }

    /// Whether the train was revalidated since the life began.
    pub fn is_revalidated(&self) -> bool
        ensures { result ≡ is_whole self.now.revalidation }
    {
        self.revalidation.is_whole()
    }

    /// What was revalidated since the life began.
    pub fn revalidation(&self) -> Revalidation
        ensures { result ≡ self.now.revalidation }
    {
        self.revalidation
    }

    /// What is to be kept over a power-up.
    pub fn kept(&self) -> Kept
        ensures { result ≡ kept_by self.now }
    {
        Kept {
            identity: self.identity,
            running_number: self.running_number,
            train_data: self.train_data,
            level: self.level,
            trip_outstanding: self.trip_outstanding,
        }
    }
}
