//! What a step of a scenario asks for.
ghost use Rattle.std.specs.Prelude.{◌≡◌, ◌⊎◌, false, Ok, Err, IfOk, IfErr, MatchOption};
ghost use Rattle.serde_json.specs.View.{view};
ghost use Rattle.simulator.specs.Shapes.{has_members, object_of_one};
ghost use Rattle.simulator.specs.Steps.{drive, telegram, clock, driver, flush, by_key, step_of};

use crate::ScenarioFault;
use crate::actions::action_of;
use crate::distance::Distance;
use crate::shapes::items_of;
use crate::step_kinds::StepKind;
use crate::telegrams::bytes_of;
use crate::values::{whole_item, within};
use events::Input;
use serde_json::Value;
use std::alloc::Global;
use units::{LONGEST_LIFE, Mph, Ms};

#[tactic(auto, unfolding(crate::specs::Steps::drive))]
fn drive_of(value: &Value) -> Result<StepKind, ScenarioFault>
    ensures { result ≡ drive (view value.now) }
{
    let items = items_of(value).ok_or(ScenarioFault::Shape)?;
    if items.len() != 2 {
        return Err(ScenarioFault::Shape);
    }
    let cm = whole_item(items, 0)?;
    let mph = whole_item(items, 1)?;
    let distance = Distance::new(cm).ok_or(ScenarioFault::OutOfRange)?;
    let speed = Mph::new(within(0, 600_000, mph)? as u32).ok_or(ScenarioFault::OutOfRange)?;
    Ok(StepKind::Drive(distance, speed))
}

// NoMemory may come in place of what the text asks for.
#[tactic(auto, unfolding(crate::specs::Steps::telegram))]
fn telegram_of(alloc: Global, value: &Value) -> Result<StepKind, ScenarioFault>
    ensures { (result ≡ Err ScenarioFault.NoMemory) ⊎ (result ≡ telegram (view value.now)) }
{
    let bytes = bytes_of(alloc, value.as_str().ok_or(ScenarioFault::Shape)?)?;
    Ok(StepKind::Happens(Input::Telegram(bytes)))
}

#[tactic(auto, unfolding(crate::specs::Steps::clock))]
fn clock_of(value: &Value) -> Result<StepKind, ScenarioFault>
    ensures { result ≡ clock (view value.now) }
{
    let number = value.as_i64().ok_or(ScenarioFault::Shape)?;
    let ms = within(0, LONGEST_LIFE - 1, number)?;
    let moment = Ms::new(ms).ok_or(ScenarioFault::OutOfRange)?;
    Ok(StepKind::Happens(Input::Clock(moment)))
}

#[tactic(auto, unfolding(crate::specs::Steps::driver))]
fn driver_of(value: &Value) -> Result<StepKind, ScenarioFault>
    ensures { result ≡ driver (view value.now) }
{
    let action = action_of(items_of(value).ok_or(ScenarioFault::Shape)?)?;
    Ok(StepKind::Happens(Input::Driver(action)))
}

#[tactic(auto, unfolding(crate::specs::Steps::flush))]
fn flush_of(value: &Value) -> Result<StepKind, ScenarioFault>
    ensures { result ≡ flush (view value.now) }
{
    match value.as_bool() {
        Some(true) => Ok(StepKind::Flush),
        _ => Err(ScenarioFault::Shape),
    }
}

// What the one member of an object asks for.
#[tactic(auto, unfolding(crate::specs::Steps::by_key))]
fn by_key(alloc: Global, name: &str, value: &Value) -> Result<StepKind, ScenarioFault>
    ensures { (result ≡ Err ScenarioFault.NoMemory) ⊎ (result ≡ by_key (object_of_one name.now (view value.now))) }
{
    match name {
        "drive" => drive_of(value),
        "telegram" => telegram_of(alloc, value),
        "clock" => clock_of(value),
        "driver" => driver_of(value),
        "flush" => flush_of(value),
        _ => Err(ScenarioFault::Shape),
    }
}

// The one member of an object: its name and its value.
fn only_member(value: &Value) -> Option<(&str, &Value)>
    ensures { MatchOption result (has_members 1 (view value.now) ≡ false)
        (λ r. view value.now ≡ object_of_one r.0.now (view r.1.now)) }
{
    let map = value.as_object()?;
    if map.len() != 1 {
        return None;
    }
    let (name, value) = map.first_key_value()?;
    Some((name.as_str(), value))
}

/// What an item of the steps asks for.
#[tactic(auto, unfolding(crate::specs::Steps::step_of))]
pub(crate) fn step_of(alloc: Global, item: &Value) -> Result<StepKind, ScenarioFault>
    ensures ok { IfOk result (λ step. step_of (view item.now) ≡ Ok step) }
    ensures err { IfErr result (λ fault. (fault ≡ ScenarioFault.NoMemory) ⊎ (step_of (view item.now) ≡ Err fault)) }
{
    match only_member(item) {
        Some((name, member)) => by_key(alloc, name, member),
        None => Err(ScenarioFault::Shape),
    }
}
