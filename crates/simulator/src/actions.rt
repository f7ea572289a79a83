//! The driver's actions in a scenario.
ghost use Rattle.std.specs.Prelude.{◌≡◌, ◌≤◌, map, IfOk};
ghost use Rattle.serde_json.specs.View.{view};
ghost use Rattle.simulator.specs.Values.{within};
ghost use Rattle.simulator.specs.Actions.{level, confirmed, acknowledged, lone_value, identity, entered_identity, entered_number, brakes, train, entered_train, chosen_level, confirmed_item, acknowledged_kind, bare, kind_reported, by_kind, action};

use crate::ScenarioFault;
use crate::values::{byte_of, whole_item, within};
use brakes::{Brakes, Deceleration, Reaction};
use driver::{
    Acknowledged, Action, ActionKind, Confirmed, DriverIdentity, RunningNumber, TrainData,
};
use mode_table::TrainLevel;
use serde_json::Value;
use units::{Length, Mph};
use vars::{TrainCategory, Variable};

fn level_of(number: i64) -> Result<TrainLevel, ScenarioFault>
    ensures { result ≡ level number }
{
    TrainLevel::of_number(byte_of(number)?).ok_or(ScenarioFault::OutOfRange)
}

fn confirmed_of(number: i64) -> Result<Confirmed, ScenarioFault>
    ensures { result ≡ confirmed number }
{
    Confirmed::of_number(byte_of(number)?).ok_or(ScenarioFault::OutOfRange)
}

fn acknowledged_of(number: i64) -> Result<Acknowledged, ScenarioFault>
    ensures { result ≡ acknowledged number }
{
    Acknowledged::of_number(byte_of(number)?).ok_or(ScenarioFault::OutOfRange)
}

fn identity_of(text: &str) -> Result<Action, ScenarioFault>
    ensures { result ≡ identity text.now }
{
    match DriverIdentity::new(text.as_bytes()) {
        Some(identity) => Ok(Action::EnterIdentity(identity)),
        None => Err(ScenarioFault::OutOfRange),
    }
}

#[tactic(auto, unfolding(crate::specs::Actions::entered_identity))]
fn entered_identity(items: &[Value]) -> Result<Action, ScenarioFault>
    ensures { result ≡ entered_identity (map view items.now) }
{
    if items.len() != 2 {
        return Err(ScenarioFault::Shape);
    }
    match items.get(1) {
        Some(item) => identity_of(item.as_str().ok_or(ScenarioFault::Shape)?),
        None => Err(ScenarioFault::Shape),
    }
}

// The one whole number after the code.
#[tactic(auto, unfolding(crate::specs::Actions::lone_value))]
fn lone_value(items: &[Value]) -> Result<i64, ScenarioFault>
    ensures { result ≡ lone_value (map view items.now) }
{
    if items.len() != 2 {
        return Err(ScenarioFault::Shape);
    }
    whole_item(items, 1)
}

#[tactic(auto, unfolding(crate::specs::Actions::entered_number))]
fn entered_number(items: &[Value]) -> Result<Action, ScenarioFault>
    ensures { result ≡ entered_number (map view items.now) }
{
    let number = within(0, 99_999_999, lone_value(items)?)?;
    match RunningNumber::new(number as u32) {
        Some(number) => Ok(Action::EnterRunningNumber(number)),
        None => Err(ScenarioFault::OutOfRange),
    }
}

fn train_length(cm: i64) -> Result<Length, ScenarioFault>
    ensures value { result ≡ within 1 409_500 cm }
    ensures limits { IfOk result (λ length. (1 ≤ length) × (length ≤ 409_500)) }
{
    Length::new(within(1, 409_500, cm)?).ok_or(ScenarioFault::OutOfRange)
}

fn train_maximum(mph: i64) -> Result<Mph, ScenarioFault>
    ensures value { result ≡ within 1 600_000 mph }
    ensures limits { IfOk result (λ maximum. (1 ≤ maximum) × (maximum ≤ 600_000)) }
{
    Mph::new(within(1, 600_000, mph)? as u32).ok_or(ScenarioFault::OutOfRange)
}

fn train_deceleration(rate: i64) -> Result<Deceleration, ScenarioFault>
    ensures { result ≡ within 1 300 rate }
{
    Deceleration::new(within(1, 300, rate)? as u16).ok_or(ScenarioFault::OutOfRange)
}

fn train_reaction(time: i64) -> Result<Reaction, ScenarioFault>
    ensures { result ≡ within 0 10_000 time }
{
    Reaction::new(within(0, 10_000, time)? as u16).ok_or(ScenarioFault::OutOfRange)
}

fn train_category(kind: i64) -> Result<TrainCategory, ScenarioFault>
    ensures { result ≡ within 0 15 kind }
{
    match TrainCategory::of_number(within(0, 15, kind)?) {
        Ok(category) => Ok(category),
        Err(_) => Err(ScenarioFault::OutOfRange),
    }
}

fn brakes_of(rate: i64, time: i64) -> Result<Brakes, ScenarioFault>
    ensures { result ≡ brakes rate time }
{
    let deceleration = train_deceleration(rate)?;
    let reaction = train_reaction(time)?;
    Ok(Brakes {
        deceleration,
        reaction,
    })
}

#[tactic(auto, unfolding(crate::specs::Actions::train))]
fn train_of(cm: i64, mph: i64, rate: i64, time: i64, kind: i64) -> Result<Action, ScenarioFault>
    ensures { result ≡ train cm mph rate time kind }
{
    let length = train_length(cm)?;
    let maximum = train_maximum(mph)?;
    let brakes = brakes_of(rate, time)?;
    let category = train_category(kind)?;
    let train = TrainData::new(length, maximum, category, brakes).unwrap();
    Ok(Action::EnterTrainData(train))
}

#[tactic(auto, unfolding(crate::specs::Actions::entered_train))]
fn entered_train(items: &[Value]) -> Result<Action, ScenarioFault>
    ensures { result ≡ entered_train (map view items.now) }
{
    if items.len() != 6 {
        return Err(ScenarioFault::Shape);
    }
    let cm = whole_item(items, 1)?;
    let mph = whole_item(items, 2)?;
    let rate = whole_item(items, 3)?;
    let time = whole_item(items, 4)?;
    let kind = whole_item(items, 5)?;
    train_of(cm, mph, rate, time, kind)
}

#[tactic(auto, unfolding(crate::specs::Actions::chosen_level))]
fn chosen_level(items: &[Value]) -> Result<Action, ScenarioFault>
    ensures { result ≡ chosen_level (map view items.now) }
{
    let level = level_of(lone_value(items)?)?;
    Ok(Action::ChooseLevel(level))
}

#[tactic(auto, unfolding(crate::specs::Actions::confirmed_item))]
fn confirmed_item(items: &[Value]) -> Result<Action, ScenarioFault>
    ensures { result ≡ confirmed_item (map view items.now) }
{
    let item = confirmed_of(lone_value(items)?)?;
    Ok(Action::Confirm(item))
}

#[tactic(auto, unfolding(crate::specs::Actions::acknowledged_kind))]
fn acknowledged_kind(items: &[Value]) -> Result<Action, ScenarioFault>
    ensures { result ≡ acknowledged_kind (map view items.now) }
{
    let kind = acknowledged_of(lone_value(items)?)?;
    Ok(Action::Acknowledge(kind))
}

// An action without values.
#[tactic(auto, unfolding(crate::specs::Actions::bare))]
fn bare(action: Action, items: &[Value]) -> Result<Action, ScenarioFault>
    ensures { result ≡ bare action (map view items.now) }
{
    if items.len() == 1 {
        Ok(action)
    } else {
        Err(ScenarioFault::Shape)
    }
}

// The kind that a code reports; Shape where it says none.
fn kind_of(code: i64) -> Result<ActionKind, ScenarioFault>
    ensures { result ≡ kind_reported code }
{
    match byte_of(code) {
        Ok(number) => ActionKind::of_number(number).ok_or(ScenarioFault::Shape),
        Err(_) => Err(ScenarioFault::Shape),
    }
}

#[tactic(auto, unfolding(crate::specs::Actions::by_kind))]
fn by_kind(kind: ActionKind, items: &[Value]) -> Result<Action, ScenarioFault>
    ensures { result ≡ by_kind kind (map view items.now) }
{
    match kind {
        ActionKind::EnterIdentity => entered_identity(items),
        ActionKind::EnterRunningNumber => entered_number(items),
        ActionKind::EnterTrainData => entered_train(items),
        ActionKind::ChooseLevel => chosen_level(items),
        ActionKind::Confirm => confirmed_item(items),
        ActionKind::Start => bare(Action::Start, items),
        ActionKind::ChooseShunting => bare(Action::ChooseShunting, items),
        ActionKind::LeaveShunting => bare(Action::LeaveShunting, items),
        ActionKind::Override => bare(Action::Override, items),
        ActionKind::Acknowledge => acknowledged_kind(items),
        ActionKind::CloseDesk => bare(Action::CloseDesk, items),
    }
}

/// The action that a code and its values report.
#[tactic(auto, unfolding(crate::specs::Actions::action))]
pub(crate) fn action_of(items: &[Value]) -> Result<Action, ScenarioFault>
    ensures { result ≡ action (map view items.now) }
{
    let code = whole_item(items, 0)?;
    let kind = kind_of(code)?;
    by_kind(kind, items)
}
