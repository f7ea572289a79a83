//! From the value of a scenario to the steps of a life.
ghost use Rattle.std.specs.Prelude.{◌≡◌, ◌⊎◌, [], map, codes, Some, IfOk, IfErr, Ok, Err};
ghost use Rattle.serde_json.specs.View.{view};
ghost use Rattle.serde_json.specs.Find.{get};
ghost use Rattle.simulator.specs.Passing.{passed};
ghost use Rattle.simulator.specs.Groups.{groups};
ghost use Rattle.simulator.specs.Lives.{steps_in, has_keys, cold_value, cold_of, life_in};

use crate::ScenarioFault;
use crate::asking::step_of;
use crate::driving::Course;
use crate::groups::lay_all;
use crate::shapes::has_members;
use crate::track::Track;
use crate::values::{byte_of, items_at};
use events::Step;
use mode_table::Cold;
use serde_json::Value;
use std::alloc::Global;

#[tactic(auto, unfolding(crate::specs::Lives::has_keys))]
fn has_keys(value: &Value) -> bool
    ensures { result ≡ has_keys (view value.now) }
{
    let count = if value.get("cold").is_some() { 3 } else { 2 };
    has_members(value, count) && value.get("groups").is_some() && value.get("steps").is_some()
}

/// What a number says as the value of `cold`.
pub(crate) fn cold_value(number: i64) -> Result<Cold, ScenarioFault>
    ensures { result ≡ cold_value number }
{
    Cold::of_number(byte_of(number)?).ok_or(ScenarioFault::OutOfRange)
}

/// What the value of `cold` says.
#[tactic(auto, unfolding(crate::specs::Lives::cold_of))]
pub(crate) fn cold_in(value: &Value) -> Result<Cold, ScenarioFault>
    ensures { result ≡ cold_of (Some (view value.now)) }
{
    cold_value(value.as_i64().ok_or(ScenarioFault::Shape)?)
}

#[tactic(auto, unfolding(crate::specs::Lives::cold_of))]
fn cold_of(value: &Value) -> Result<Cold, ScenarioFault>
    ensures { result ≡ cold_of (get (codes "cold") (view value.now)) }
{
    match value.get("cold") {
        Some(cold) => cold_in(cold),
        None => Ok(Cold::Unknown),
    }
}

/// The track on which all groups are laid.
pub(crate) fn track_of(alloc: Global, items: &[Value]) -> Result<Track, ScenarioFault>
    ensures ok { IfOk result (λ track. (laid : _) × (groups (map view items.now) [] ≡ Ok laid)
        × (passed track.balises.items ≡ passed laid)) }
    ensures err { IfErr result (λ fault. (fault ≡ ScenarioFault.NoMemory)
        ⊎ (groups (map view items.now) [] ≡ Err fault)) }
{
    let mut balises = Vec::new(alloc);
    lay_all(alloc, items, &mut balises)?;
    Ok(Track::new(balises)?)
}

#[tactic(auto, unfolding(crate::specs::Lives::steps_in))]
fn steps_of(alloc: Global, track: &Track, items: &[Value]) -> Result<Vec<Step>, ScenarioFault>
    ensures ok { IfOk result (λ steps. steps_in (passed track.now.balises.items) (map view items.now)
        ≡ Ok steps.items) }
    ensures err { IfErr result (λ fault. (fault ≡ ScenarioFault.NoMemory)
        ⊎ (steps_in (passed track.now.balises.items) (map view items.now) ≡ Err fault)) }
{
    let mut course = Course::new(alloc);
    for item in items {
        let step = step_of(alloc, item)?;
        course.take(track, step)?;
    }
    Ok(course.end()?)
}

/// What the train knows of movements without power, and the steps of the life that a value asks for; or the value's
/// first fault. The faults come in this order: the keys of the object; the value of `cold`; the groups; the steps; in
/// each item its shape, and then its numbers and texts. NoMemory may come in the place of any of them.
#[tactic(auto, unfolding(crate::specs::Lives::life_in))]
pub fn life_of(alloc: Global, value: &Value) -> Result<(Cold, Vec<Step>), ScenarioFault>
    ensures ok { IfOk result (λ life. life_in (view value.now) ≡ Ok (life.0, life.1.items)) }
    ensures err { IfErr result (λ fault. (fault ≡ ScenarioFault.NoMemory) ⊎ (life_in (view value.now) ≡ Err fault)) }
{
    if !has_keys(value) {
        return Err(ScenarioFault::Shape);
    }
    let cold = cold_of(value)?;
    let groups = items_at(value, "groups")?;
    let track = track_of(alloc, groups)?;
    let items = items_at(value, "steps")?;
    let steps = steps_of(alloc, &track, items)?;
    Ok((cold, steps))
}
