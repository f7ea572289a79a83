//! The lines that say why events were answered so (`docs/reference/json.md`).

use crate::course::Explanation;
use crate::group::GroupLine;
use crate::known::KnownLine;
use crate::serializing::{
    CauseRuns, write_limit_cause, write_limit_section, write_trip_cause, write_trip_section,
};
use events::{Brake, Output};
use image_lines::{DemandLine, Reason, Stretch, write_brake};
use kernel::TripCause;
use lab_replay::{LostBlock, StretchLine, Verdict};
use reasons::{LimitKind, LimitReport, Reasoning, Runs, TripReport};
use serde::Serialize;

/// What was answered to an event, and the numbers that causes refer to.
#[derive(Clone, Copy, Serialize)]
pub struct Answer {
    /// The number of the event.
    pub event: u64,
    /// The brake command.
    #[serde(serialize_with = "write_brake")]
    pub brake: Brake,
    /// The speed limit, in metres per hour.
    pub limit_m_per_h: u32,
    /// The speed of the last reading, in metres per hour.
    pub speed_m_per_h: u32,
    /// How far the train has rolled backward since it stood, in centimetres.
    pub backward_cm: u64,
    /// How far it may, in centimetres.
    pub allowed_backward_cm: u64,
}

/// Why the brake is commanded, the train was tripped, and the limit is what it is.
#[derive(Clone, Copy, Serialize)]
pub struct Causes {
    /// Of each cause of the brake the number of the event since which it has held; None where it doesn't hold.
    #[serde(flatten)]
    pub runs: CauseRuns,
    /// Why the train was tripped; None where no trip is owed, or it is from before the power-up.
    #[serde(serialize_with = "write_trip_cause")]
    pub trip_cause: Option<TripCause>,
    /// The number of the event that tripped it.
    pub trip_cause_event: Option<u64>,
    /// The sections of SUBSET-026 for that.
    #[serde(serialize_with = "write_trip_section")]
    pub trip_cause_section: Option<TripCause>,
    /// What decides the limit.
    #[serde(serialize_with = "write_limit_cause")]
    pub limit_cause: LimitKind,
    /// The speed that applies at what lies ahead, else the limit, in metres per hour.
    pub limit_cause_speed_m_per_h: u32,
    /// Its place, in centimetres; None where it has none.
    pub limit_cause_place_cm: Option<i64>,
    /// The number of a restriction, NID_TSR.
    pub limit_cause_number: Option<u64>,
    /// The sections of SUBSET-026 for that.
    #[serde(serialize_with = "write_limit_section")]
    pub limit_cause_section: LimitKind,
}

/// An event of a life that is run again.
#[derive(Drop, Serialize)]
pub struct EventLine {
    /// What was answered.
    #[serde(flatten)]
    pub answer: Answer,
    /// Why.
    #[serde(flatten)]
    pub causes: Causes,
    /// The balise groups that the event closed, in their order.
    #[serde(skip_serializing_if = "Vec::is_empty")]
    pub groups: Vec<GroupLine>,
    /// What a guard next to the unit demands by the telegram of the event, in their order.
    #[serde(skip_serializing_if = "Vec::is_empty")]
    pub demands: Vec<DemandLine>,
    /// What is known after the event, where that is asked for.
    #[serde(skip_serializing_if = "Option::is_none")]
    pub known: Option<KnownLine>,
}

/// A line of an explanation.
#[derive(Drop, Serialize)]
#[serde(untagged)]
pub enum WhyLine {
    /// An event.
    Event(EventLine),
    /// Events of a life that can't be run again.
    LeftOut(StretchLine),
    /// A block that can't be read.
    Lost(LostBlock),
}

/// The answer to the last event of a life, of this number.
pub(crate) fn answer_in(life: &Reasoning, event: u64, output: &Output) -> Answer {
    let motion = life.state().motion();
    Answer {
        event,
        brake: output.brake,
        limit_m_per_h: output.limit.get(),
        speed_m_per_h: motion.speed.get(),
        backward_cm: motion.backward,
        allowed_backward_cm: motion.allowed,
    }
}

/// The causes of an answer.
pub(crate) fn causes_of(runs: &Runs, trip: &Option<TripReport>, limit: &LimitReport) -> Causes {
    let (trip_cause, trip_cause_event) = match trip {
        Some(trip) => (Some(trip.cause), Some(trip.event)),
        None => (None, None),
    };
    Causes {
        runs: CauseRuns { runs: *runs },
        trip_cause,
        trip_cause_event,
        trip_cause_section: trip_cause,
        limit_cause: limit.kind,
        limit_cause_speed_m_per_h: limit.speed.get(),
        limit_cause_place_cm: limit.place,
        limit_cause_number: limit.number,
        limit_cause_section: limit.kind,
    }
}

/// The line of the last event of a life, of this number, with the groups that it closed, the demands of its telegram and
/// what is known after it.
pub(crate) fn event_line(
    life: &Reasoning,
    event: u64,
    explanation: &Explanation,
    groups: Vec<GroupLine>,
    demands: Vec<DemandLine>,
    known: Option<KnownLine>,
) -> WhyLine {
    let output = life.output();
    let answer = answer_in(life, event, &output);
    let causes = causes_of(&explanation.runs, &life.trip(), &explanation.decides);
    WhyLine::Event(EventLine {
        answer,
        causes,
        groups,
        demands,
        known,
    })
}

/// The line of events that can't be run again, with the reason.
pub(crate) fn left_out_line(stretch: Stretch, reason: Reason) -> WhyLine {
    WhyLine::LeftOut(StretchLine {
        life: stretch.life,
        first_event: stretch.first,
        last_event: stretch.last,
        replay: Verdict::NotReplayed,
        reason: Some(reason),
    })
}
