//! The mode areas ahead as targets.
ghost use Rattle.std.specs.Prelude.{◌≡◌};
ghost use Rattle.std.specs.Iterator.{at_most};
ghost use Rattle.speed_profile.specs.Ahead.{over_ahead, area_targets};
ghost use Rattle.speed_profile.specs.Targets.{Describes};

use crate::starts::first_in_area;
use areas::{Area, Areas, NationalSpeeds};
use braking::Target;
use std::marker::Model;
use units::Cm;

/// Each mode area at the first centimetre that it covers ahead of a front.
#[derive(Drop)]
pub struct AreaTargets<'a> {
    front: Cm,
    national: NationalSpeeds,
    // Those that weren't looked at yet.
    left: &'a [Area],
}

impl<'a> Model for AreaTargets<'a> {
    ghost use Rattle.std.specs.Prelude.{length, None};
    ghost use Rattle.speed_profile.specs.Ahead.{over_ahead, area_targets};
    ghost use Rattle.speed_profile.specs.Targets.{Left};

    ghost Value = { Left };

    ghost view = { λ a. record { targets = over_ahead a.front (area_targets a.national a.left.now); most = length a.left.now; speeds_from = None } };
}

impl<'a> AreaTargets<'a> {
    /// The areas that are covered ahead of a front.
    pub fn new(front: Cm, national: NationalSpeeds, areas: &'a Areas) -> AreaTargets<'a>
        ensures { result.targets ≡ over_ahead front (area_targets national areas.now) }
    {
        AreaTargets {
            front,
            national,
            left: areas.as_slice(),
        }
    }
}

impl<'a> Iterator for AreaTargets<'a> {
    type Item = Target;

    ghost next_gives = { Describes };

    ghost remaining = { λ left. at_most left.most };

    fn next(&mut self) -> Option<Target> {
        while let Some((first, others)) = self.left.split_first() {
            self.left = others;
            let target = first_in_area(self.front, &self.national, first);
            if target.is_some() {
                return target;
            }
        }
        None
    }
}
