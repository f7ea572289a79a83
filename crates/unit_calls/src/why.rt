//! Why the newest released output is what it is, as C gets it.
ghost use Rattle.std.specs.Prelude.{◌≡◌};
ghost use Rattle.c_numbers.specs.Numbers.{flag_of};
ghost use Rattle.kernel.specs.Causes.{is_among, marked};
ghost use Rattle.kernel.specs.StandsFor.{StandsForLife};
ghost use Rattle.mode_control.specs.Life.{Life};
ghost use Rattle.track_picture.specs.Stores.{segment_stores};
ghost use Rattle.unit_calls.specs.Whys.{holds_in, target_of, releases, distance_to, target_distance, target_speed, waiting_number, time_left, override_time, override_distance, override_ends, why_with, DescribesLifeWhy};

use crate::outputs::{EtcsOutput, output_reported};
use braking::Target;
use c_numbers::{flag, limit_number, or_zero, place_or_zero};
use driver::OverrideLeft;
use kernel::{BrakeCause, BrakeCauses, DisplayValues, Motion, State, Waiting};
use reasons::{LimitReport, limit_reported};
use speed_supervision::{LimitCause, SpeedCause};
use units::{Cm, Mph};

/// Why the newest released output is what it is, and what a display shows of it. Lengths are centimetres, speeds metres
/// per hour, times milliseconds; what isn't there is 0.
#[repr(C)]
#[derive(Clone, Copy)]
pub struct EtcsUnitWhy {
    /// The output; its limit is the permitted speed.
    pub output: EtcsOutput,
    /// How far the train has rolled backward since it stood.
    pub backward: u64,
    /// How far it may: D_NVROLL.
    pub allowed: u64,
    /// The place of what decides the limit.
    pub place: i64,
    /// The number of a restriction that decides it, NID_TSR.
    pub restriction: u64,
    /// How far a target that decides the limit lies ahead of the maximum safe front.
    pub target_distance: u64,
    /// How long the acknowledgement of On Sight may be owed yet until the service brake.
    pub on_sight_left: u64,
    /// That of Shunting.
    pub shunting_left: u64,
    /// That of level 0.
    pub level_0_left: u64,
    /// What is left of the time of an override.
    pub override_time: u64,
    /// What is left of its distance.
    pub override_distance: u64,
    /// The speed above which the service brake comes.
    pub service_speed: u32,
    /// The speed above which the emergency brake comes.
    pub emergency_speed: u32,
    /// The speed of the last reading.
    pub speed: u32,
    /// The speed of what decides the limit.
    pub limit_speed: u32,
    /// The speed that a target asks for that decides the limit.
    pub target_speed: u32,
    /// The release speed, where it decides the limit.
    pub release_speed: u32,
    /// 1 of each cause of a brake that holds, in the order of the brake table.
    pub holds: [u8; 10],
    /// What decides the limit, 1 to 20.
    pub limit_cause: u8,
    /// 1 where that has a place.
    pub has_place: u8,
    /// 1 where it is a restriction.
    pub has_restriction: u8,
    /// 1 where it is a target ahead.
    pub has_target: u8,
    /// 1 where it is a release speed.
    pub has_release: u8,
    /// Whether an acknowledgement of On Sight is asked for, 1, or owed, 2.
    pub on_sight: u8,
    /// That of Shunting.
    pub shunting: u8,
    /// That of level 0.
    pub level_0: u8,
    /// 1 where the trip is overridden.
    pub has_override: u8,
    /// 1 where its time has an end.
    pub override_ends: u8,
    /// 0.
    pub reserved: [u8; 4],
}

/// What is known of it.
#[derive(Clone, Copy)]
pub struct Reported {
    /// The output.
    pub output: EtcsOutput,
    /// How the train moves.
    pub motion: Motion,
    /// What decides the limit.
    pub limit: LimitReport,
    /// The target ahead that does.
    pub target: Option<Target>,
    /// Whether a release speed does.
    pub releases: bool,
    /// What a display shows.
    pub display_values: DisplayValues,
    /// Which causes of a brake hold.
    pub holds: [u8; 10],
}

// 1 where a cause holds, else 0.
fn mark_of(causes: &BrakeCauses, cause: BrakeCause) -> u8
    ensures { result ≡ flag_of (is_among cause (marked causes.now)) }
{
    u8::from(causes.holds(cause))
}

// Which causes hold, in the order of the table.
fn holds_in(causes: &BrakeCauses) -> [u8; 10]
    ensures { result ≡ holds_in (marked causes.now) }
{
    BrakeCause::ALL.map(|cause| mark_of(causes, cause))
}

// The target ahead that decides the limit.
fn target_of(decides: &LimitCause) -> Option<Target>
    ensures { result ≡ target_of decides.now }
{
    match decides {
        LimitCause::Speed(SpeedCause::Ahead(ahead)) => Some(ahead.target),
        LimitCause::Speed(SpeedCause::OverTrain(_) | SpeedCause::Release(_))
        | LimitCause::NoSpeed
        | LimitCause::NoTrainData
        | LimitCause::National(_) => None,
    }
}

// Whether a release speed decides it.
fn releases(decides: &LimitCause) -> bool
    ensures { result ≡ releases decides.now }
{
    match decides {
        LimitCause::Speed(SpeedCause::Release(_)) => true,
        LimitCause::Speed(SpeedCause::OverTrain(_) | SpeedCause::Ahead(_))
        | LimitCause::NoSpeed
        | LimitCause::NoTrainData
        | LimitCause::National(_) => false,
    }
}

// How far it is from a place to one ahead of it; 0 where it isn't ahead.
fn distance_to(from: Cm, place: Cm) -> u64
    ensures { result ≡ distance_to from place }
{
    if from < place {
        (place.get() - from.get()).unsigned_abs()
    } else {
        0
    }
}

fn target_distance(front: Cm, target: Option<Target>) -> u64
    ensures { result ≡ target_distance front target }
{
    match target {
        None => 0,
        Some(target) => distance_to(front, target.place),
    }
}

fn target_speed(target: Option<Target>) -> u32
    ensures { result ≡ target_speed target }
{
    match target {
        None => 0,
        Some(target) => target.speed.get(),
    }
}

fn waiting_number(waiting: Waiting) -> u8
    ensures { result ≡ waiting_number waiting }
{
    match waiting {
        Waiting::Nothing => 0,
        Waiting::Requested => 1,
        Waiting::Owed(_) => 2,
    }
}

fn time_left(waiting: Waiting) -> u64
    ensures { result ≡ time_left waiting }
{
    match waiting {
        Waiting::Nothing | Waiting::Requested => 0,
        Waiting::Owed(left) => left,
    }
}

// What is left of the time of an override; 0 where it has no end.
fn override_time(left: Option<OverrideLeft>) -> u64
    ensures { result ≡ override_time left }
{
    match left {
        Some(
            OverrideLeft {
                time: Some(time),
                ..
            },
        ) => time,
        Some(OverrideLeft { time: None, .. }) | None => 0,
    }
}

fn override_distance(left: Option<OverrideLeft>) -> u64
    ensures { result ≡ override_distance left }
{
    match left {
        Some(left) => left.distance,
        None => 0,
    }
}

// Whether an override ends by time.
fn override_ends(left: Option<OverrideLeft>) -> bool
    ensures { result ≡ override_ends left }
{
    match left {
        Some(left) => left.time.is_some(),
        None => false,
    }
}

// All of it as C sees it.
fn why_with(reported: &Reported) -> EtcsUnitWhy
    ensures { result ≡ why_with reported.now }
{
    EtcsUnitWhy {
        output: reported.output,
        backward: reported.motion.backward,
        allowed: reported.motion.allowed,
        place: place_or_zero(reported.limit.place),
        restriction: or_zero(reported.limit.number),
        target_distance: target_distance(reported.display_values.max_front, reported.target),
        on_sight_left: time_left(reported.display_values.waiting.on_sight),
        shunting_left: time_left(reported.display_values.waiting.shunting),
        level_0_left: time_left(reported.display_values.waiting.level_0),
        override_time: override_time(reported.display_values.overriding),
        override_distance: override_distance(reported.display_values.overriding),
        service_speed: reported.display_values.service_speed,
        emergency_speed: reported.display_values.emergency_speed,
        speed: reported.motion.speed.get(),
        limit_speed: reported.limit.speed.get(),
        target_speed: target_speed(reported.target),
        release_speed: if reported.releases {
            reported.output.limit
        } else {
            0
        },
        holds: reported.holds,
        limit_cause: limit_number(reported.limit.kind),
        has_place: flag(reported.limit.place),
        has_restriction: flag(reported.limit.number),
        has_target: flag(reported.target),
        has_release: u8::from(reported.releases),
        on_sight: waiting_number(reported.display_values.waiting.on_sight),
        shunting: waiting_number(reported.display_values.waiting.shunting),
        level_0: waiting_number(reported.display_values.waiting.level_0),
        has_override: flag(reported.display_values.overriding),
        override_ends: u8::from(override_ends(reported.display_values.overriding)),
        reserved: [0; 4],
    }
}

/// What a state says about its last event, which has this number.
pub fn why_reported(event: u64, state: &State) -> EtcsUnitWhy
    ensures { (life : Life) → StandsForLife segment_stores state.now life → DescribesLifeWhy event life result }
{
    let output = state.output();
    let permitted = output.limit;
    let decides = state.limit_cause();
    let limit = limit_reported(permitted, &decides);
    let causes = state.brake_causes();
    let reported = Reported {
        output: output_reported(event, output),
        motion: state.motion(),
        limit,
        target: target_of(&decides),
        releases: releases(&decides),
        display_values: state.display_values(),
        holds: holds_in(&causes),
    };
    why_with(&reported)
}
