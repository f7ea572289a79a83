//! At most one announced level is kept: taken, reached and deleted.
ghost use Rattle.std.specs.Prelude.{◌≡◌, List, [], ◌∷◌};
ghost use Rattle.areas.specs.Levels.{LevelEntry, fact_of, waiting, coming, is_level_0_announced, any_asks_for};
ghost use Rattle.areas.specs.Levels.LevelEntry.{Announced, Reached, Forgotten};

use crate::Announcement;
use mode_table::TrainLevel;
use packets::LevelTransition;
use std::marker::Model;
use units::{Cm, GroupPlace};

/// The level that is announced, if one is (packet 41; SUBSET-026, 5.10; which of its levels counts: this project's
/// profile). Its calls take no memory.
#[derive(Clone, Copy)]
pub struct AnnouncedLevel {
    announced: Option<Announcement>,
}

impl Model for AnnouncedLevel {
    ghost use Rattle.std.specs.Prelude.{Option};
    ghost use Rattle.areas.specs.declared.announcement.Announcement.{Announcement as Reported};

    ghost Value = { Option Reported };

    ghost view = { λ c. c.announced };

    ghost inverse = { λ reported. record { announced = reported } };
}

impl AnnouncedLevel {
    /// No level is announced.
    pub fn new() -> Self
        ensures { result ≡ waiting [] }
    {
        AnnouncedLevel { announced: None }
    }

    /// Takes packet 41 in place of the older announcement. It counts from the place of its group, in centimetres. Where
    /// the train can run in none of its levels, nothing changes.
    pub fn announce(&mut self, packet: &LevelTransition, place: GroupPlace)
        ensures { (entries : List LevelEntry) → self.old ≡ waiting entries
            → self.new ≡ waiting (Announced (fact_of packet.now place) ∷ entries) }
    {
        if let Some(announced) = Announcement::of(packet, place) {
            self.announced = Some(announced);
        }
    }

    /// Answers the level that comes into force where the maximum safe front, in centimetres, has reached its start;
    /// then it is no longer announced. The caller asks once an event.
    pub fn reach(&mut self, max_front: Cm) -> Option<TrainLevel>
        ensures stands { (entries : List LevelEntry) → self.old ≡ waiting entries
            → self.new ≡ waiting (Reached max_front ∷ entries) }
        ensures level { result ≡ coming max_front self.old }
    {
        let announced = self.announced?;
        if !announced.is_reached(max_front) {
            return None;
        }
        self.announced = None;
        Some(announced.level)
    }

    /// Deletes the announcement, as a mode does (4.10).
    pub fn clear(&mut self)
        ensures { (entries : List LevelEntry) → self.new ≡ waiting (Forgotten ∷ entries) }
    {
        self.announced = None;
    }

    /// What is announced; None where no level is.
    pub fn announced(&self) -> Option<Announcement>
        ensures { result ≡ self.now }
    {
        self.announced
    }

    /// Whether an announcement of level 0 is left.
    pub fn remains(&self) -> bool
        ensures { result ≡ is_level_0_announced self.now }
    {
        match self.announced {
            None => false,
            Some(announced) => matches!(announced.level, TrainLevel::Level0),
        }
    }

    /// Whether an announcement of level 0 asks for an acknowledgement, with the maximum safe front at this place, in
    /// centimetres.
    pub fn asks(&self, max_front: Cm) -> bool
        ensures { result ≡ any_asks_for max_front self.now }
    {
        match self.announced {
            None => false,
            Some(announced) => announced.asks(max_front),
        }
    }
}
