//! Where the train was, and how fast it might run.

use blocks::Situation;
use serde::Serialize;

/// Where the train was, and how fast it might run. All are None in format 1.
#[derive(Drop, Serialize)]
pub struct PlaceFacts {
    /// The estimated place of the front, in centimetres.
    pub place_cm: Option<i64>,
    /// The uncertainty of the place to either side, in centimetres.
    pub uncertainty_cm: Option<u64>,
    /// The estimate less the uncertainty, in centimetres; None also for an uncertainty beyond 2^62 cm.
    pub min_safe_front_cm: Option<i64>,
    /// The estimate plus the uncertainty, in centimetres; None also for an uncertainty beyond 2^62 cm.
    pub max_safe_front_cm: Option<i64>,
    /// The speed limit, in metres per hour.
    pub limit_m_per_h: Option<u32>,
}

/// The greatest uncertainty for which the safe fronts are reported, in centimetres.
const FARTHEST: u64 = 1 << 62;

const NOTHING: PlaceFacts = PlaceFacts {
    place_cm: None,
    uncertainty_cm: None,
    min_safe_front_cm: None,
    max_safe_front_cm: None,
    limit_m_per_h: None,
};

/// Where the train was and its limit; nothing where the format says neither.
pub(crate) fn place_facts(situation: Option<Situation>) -> PlaceFacts {
    let Some(reported) = situation else {
        return NOTHING;
    };
    let place = reported.estimate.get();
    let facts = PlaceFacts {
        place_cm: Some(place),
        uncertainty_cm: Some(reported.uncertainty),
        limit_m_per_h: Some(reported.limit.get()),
        ..NOTHING
    };
    if reported.uncertainty > FARTHEST {
        return facts;
    }
    let way = reported.uncertainty as i64;
    PlaceFacts {
        min_safe_front_cm: place.checked_sub(way),
        max_safe_front_cm: place.checked_add(way),
        ..facts
    }
}
