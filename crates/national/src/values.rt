//! One set of national values: the defaults, or what packet 3 reports.
ghost use Rattle.std.specs.Prelude.{◌≡◌};
ghost use Rattle.national.specs.Values.{defaults, values_of, time_of, open_distance_in};

use crate::{OverrideDuration, StaffResponsibleDistance};
use packets::NationalValues;
use units::{Mph, Reach};
use vars::{OpenLength, OverrideTime, Scale, SpeedStep, Variable};

/// National values (packet 3; SUBSET-026, 3.18.2). Speeds are metres per hour, distances centimetres, times
/// milliseconds.
#[derive(Clone, Copy, PartialEq, Eq)]
pub struct Values {
    /// The speed in Shunting (V_NVSHUNT).
    pub shunting: Mph,
    /// The speed in Staff Responsible (V_NVSTFF).
    pub staff_responsible: Mph,
    /// The speed in On Sight (V_NVONSIGHT).
    pub on_sight: Mph,
    /// The speed in Unfitted (V_NVUNFIT).
    pub unfitted: Mph,
    /// The release speed (V_NVREL).
    pub release: Mph,
    /// How far the train may roll back, in centimetres (D_NVROLL).
    pub roll: Reach,
    /// The speed at or below which the trip may be overridden (V_NVALLOWOVTRP).
    pub override_allowed: Mph,
    /// The speed while the trip is overridden (V_NVSUPOVTRP).
    pub override_speed: Mph,
    /// How far the trip stays overridden, in centimetres (D_NVOVTRP).
    pub override_distance: Reach,
    /// How long the trip stays overridden (T_NVOVTRP); None has no end.
    pub override_time: Option<OverrideDuration>,
    /// How far the train may run in Staff Responsible (D_NVSTFF); None has no end.
    pub staff_responsible_distance: Option<StaffResponsibleDistance>,
}

impl Values {
    /// The defaults, which hold until others come into force (SUBSET-026, 3.18.2; the numbers: this project's profile,
    /// in `docs/explain/conformance.md`).
    pub fn defaults() -> Values
        ensures { result ≡ defaults }
    {
        Values {
            shunting: Mph::new(30_000).unwrap(),
            staff_responsible: Mph::new(40_000).unwrap(),
            on_sight: Mph::new(30_000).unwrap(),
            unfitted: Mph::new(100_000).unwrap(),
            release: Mph::new(40_000).unwrap(),
            roll: Reach::new(200).unwrap(),
            override_allowed: Mph::new(0).unwrap(),
            override_speed: Mph::new(30_000).unwrap(),
            override_distance: Reach::new(20_000).unwrap(),
            override_time: OverrideDuration::new(60_000),
            staff_responsible_distance: None,
        }
    }

    /// The values of a packet 3, in the units of `Values`: steps of 5 km/h, its scale, and seconds are worked out.
    pub fn of(packet: &NationalValues) -> Values
        ensures { result ≡ values_of packet.now }
    {
        let scale = packet.scale;
        Values {
            shunting: packet.shunting.speed(),
            staff_responsible: packet.staff_responsible.speed(),
            on_sight: packet.on_sight.speed(),
            unfitted: packet.unfitted.speed(),
            release: packet.release.speed(),
            roll: packet.roll.in_scale(scale),
            override_allowed: packet.override_allowed.speed(),
            override_speed: packet.override_speed.speed(),
            override_distance: packet.override_distance.in_scale(scale),
            override_time: time_limit(packet.override_time),
            staff_responsible_distance: open_distance(packet.staff_responsible_distance, scale),
        }
    }
}

// T_NVOVTRP: the number of the time that has no end.
const ENDLESS_TIME: u64 = 255;

fn time_limit(time: OverrideTime) -> Option<OverrideDuration>
    ensures { result ≡ time_of time }
{
    let seconds = time.number();
    if seconds == ENDLESS_TIME {
        return None;
    }
    OverrideDuration::new(1_000 * seconds as u32)
}

// D_NVSTFF: the number of the distance that has no end.
const ENDLESS_DISTANCE: u64 = 32_767;

fn open_distance(length: OpenLength, scale: Scale) -> Option<StaffResponsibleDistance>
    ensures { result ≡ open_distance_in scale length }
{
    let OpenLength::Length(distance) = length else {
        return None;
    };
    if distance.number() == ENDLESS_DISTANCE {
        return None;
    }
    StaffResponsibleDistance::new(distance.in_scale(scale).get())
}
