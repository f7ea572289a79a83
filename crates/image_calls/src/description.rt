//! Why an event was answered so, as C gets it.
ghost use Rattle.std.specs.Prelude.{◌≡◌};
ghost use Rattle.kernel.specs.Lives.{Story};
ghost use Rattle.reasons.specs.Reported.{Reasons};
ghost use Rattle.image_calls.specs.Whys.{DescribesWhy, why_with};

use crate::why_numbers::{holds_of, since_of, trip_cause_reported, trip_event_reported};
use c_numbers::{brake_number, flag, limit_number, or_zero, place_or_zero};
use events::Output;
use reasons::{LimitReport, Reasoning, Runs, TripReport, limit_reported};
use units::Mph;

/// Why an event was answered so.
#[repr(C)]
#[derive(Clone, Copy)]
pub struct EtcsWhy {
    /// The number of the event.
    pub event: u64,
    /// Of each cause of a brake, in the order of the brake table, the first event of the unbroken run of events of the
    /// life after which it has held; 0 where it doesn't hold.
    pub since: [u64; 10],
    /// The event by which Trip was entered, where `trip_cause` isn't 0.
    pub trip_event: u64,
    /// How far the train has rolled backward since it stood, in centimetres.
    pub backward: u64,
    /// How far it may, in centimetres: D_NVROLL.
    pub allowed: u64,
    /// The place of what decides the limit, in centimetres; 0 where it has none.
    pub place: i64,
    /// The number of a restriction that decides it, NID_TSR; 0 where none does.
    pub restriction: u64,
    /// The limit, in metres per hour.
    pub limit: u32,
    /// The speed of the last reading, in metres per hour.
    pub speed: u32,
    /// The speed of what decides the limit, in metres per hour.
    pub limit_speed: u32,
    /// 1 of each cause of a brake that holds, in the order of the brake table; else 0.
    pub holds: [u8; 10],
    /// 0 none, 1 service, 2 emergency.
    pub brake: u8,
    /// Why Trip was entered, 1 to 5, of a trip that is owed; 0 where none is, or it was entered in a life before.
    pub trip_cause: u8,
    /// What decides the limit, 1 to 20.
    pub limit_cause: u8,
    /// 1 where that has a place; else 0.
    pub has_place: u8,
    /// 1 where it is a restriction; else 0.
    pub has_restriction: u8,
    /// 0.
    pub reserved: [u8; 5],
}

// All of it as C sees it.
fn why_with(
    event: u64,
    output: Output,
    runs: Runs,
    trip: Option<TripReport>,
    backward: u64,
    allowed: u64,
    speed: Mph,
    limit: LimitReport,
) -> EtcsWhy
    ensures { result ≡ why_with event output runs trip backward allowed speed limit }
{
    EtcsWhy {
        event,
        since: since_of(&runs),
        trip_event: trip_event_reported(trip),
        backward,
        allowed,
        place: place_or_zero(limit.place),
        restriction: or_zero(limit.number),
        limit: output.limit.get(),
        speed: speed.get(),
        limit_speed: limit.speed.get(),
        holds: holds_of(&runs),
        brake: brake_number(output.brake),
        trip_cause: trip_cause_reported(trip),
        limit_cause: limit_number(limit.kind),
        has_place: flag(limit.place),
        has_restriction: flag(limit.number),
        reserved: [0; 5],
    }
}

/// What a life says about its last event, which has this number.
pub(crate) fn why_reported(event: u64, life: &Reasoning) -> EtcsWhy
    ensures { (story : Story) → Reasons story life.now → DescribesWhy event story result }
{
    let output = life.output();
    let motion = life.state().motion();
    let cause = life.limit_cause();
    why_with(
        event,
        output,
        life.runs(),
        life.trip(),
        motion.backward,
        motion.allowed,
        motion.speed,
        limit_reported(output.limit, &cause),
    )
}
