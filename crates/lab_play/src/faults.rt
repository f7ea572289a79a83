//! Where the fault of a scenario is.

use serde_json::Value;
use simulator::{Scenario, ScenarioFault, fault_of_cold, fault_of_group, fault_of_step};
use std::alloc::Global;
use std::fmt;
use std::fmt::{Formatter, Write};

/// The part of a scenario that has its fault.
#[derive(Clone, Copy)]
pub enum FaultPlace {
    /// The text, which is no JSON.
    Text,
    /// The scenario itself.
    Whole,
    /// Its `cold`.
    Cold,
    /// Its groups, which are no list or aren't there.
    Groups,
    /// A group, from 0.
    Group(usize),
    /// Its steps, which are no list or aren't there.
    Steps,
    /// A step, from 0, and the member that it has.
    Step(usize, Option<&'static str>),
}

impl FaultPlace {
    /// What is wanted there.
    pub fn wanted(self) -> &'static str {
        match self {
            FaultPlace::Text => "JSON (RFC 8259)",
            FaultPlace::Whole => "an object of groups, steps and perhaps cold",
            FaultPlace::Cold => "0, 1 or 2",
            FaultPlace::Groups => "a list of groups",
            FaultPlace::Group(_) => "an object of at, spacing and balises, within their limits",
            FaultPlace::Steps => "a list of steps",
            FaultPlace::Step(_, _) => "drive, telegram, clock, driver or flush, within its limits",
        }
    }
}

/// Its JSON pointer (RFC 6901).
impl fmt::Display for FaultPlace {
    fn fmt<W: Write>(&self, f: &mut Formatter<W>) -> fmt::Result {
        match self {
            FaultPlace::Text | FaultPlace::Whole => Ok(()),
            FaultPlace::Cold => f.write_str("/cold"),
            FaultPlace::Groups => f.write_str("/groups"),
            FaultPlace::Group(number) => write!(f, "/groups/{number}"),
            FaultPlace::Steps => f.write_str("/steps"),
            FaultPlace::Step(number, None) => write!(f, "/steps/{number}"),
            FaultPlace::Step(number, Some(name)) => write!(f, "/steps/{number}/{name}"),
        }
    }
}

// Whether an object has no member but these.
fn has_only(value: &Value, names: &[&str]) -> bool {
    match value.as_object() {
        Some(members) => {
            let known = names
                .iter()
                .filter(|name| value.get(**name).is_some())
                .count();
            members.len() == known
        }
        None => false,
    }
}

// The only member of a step, where it is one that a step may have.
fn member_of(step: &Value) -> Option<&'static str> {
    for name in ["drive", "telegram", "clock", "driver", "flush"] {
        if has_only(step, &[name]) && step.get(name).is_some() {
            return Some(name);
        }
    }
    None
}

// The first part of a scenario that has a fault by itself, and that fault.
fn first_fault(alloc: Global, scenario: &Value) -> Option<(FaultPlace, ScenarioFault)> {
    if !has_only(scenario, &["cold", "groups", "steps"]) {
        return Some((FaultPlace::Whole, ScenarioFault::Shape));
    }
    let Some(groups) = scenario.get("groups").and_then(Value::as_array) else {
        return Some((FaultPlace::Groups, ScenarioFault::Shape));
    };
    let Some(steps) = scenario.get("steps").and_then(Value::as_array) else {
        return Some((FaultPlace::Steps, ScenarioFault::Shape));
    };
    if let Some(fault) = scenario.get("cold").and_then(|cold| fault_of_cold(cold)) {
        return Some((FaultPlace::Cold, fault));
    }
    for (number, group) in groups.iter().enumerate() {
        if let Some(fault) = fault_of_group(alloc, group) {
            return Some((FaultPlace::Group(number), fault));
        }
    }
    for (number, step) in steps.iter().enumerate() {
        if let Some(fault) = fault_of_step(alloc, step) {
            return Some((FaultPlace::Step(number, member_of(step)), fault));
        }
    }
    None
}

/// Where the value of a scenario has the fault for which it is refused (`simulator::life_of`): the first part with a
/// fault, where that is this one; else the scenario. None where memory is refused.
pub(crate) fn place_in(
    alloc: Global,
    scenario: &Value,
    fault: ScenarioFault,
) -> Option<FaultPlace> {
    match first_fault(alloc, scenario) {
        Some((_, ScenarioFault::NoMemory)) => None,
        Some((place, found)) if found.number() == fault.number() => Some(place),
        _ => Some(FaultPlace::Whole),
    }
}

/// The same where the scenario is a text, which may be no JSON (`simulator::events_of`).
pub fn fault_place(alloc: Global, scenario: &Scenario, fault: ScenarioFault) -> Option<FaultPlace> {
    match Value::from_slice(alloc, scenario.bytes.as_slice()) {
        Ok(value) => place_in(alloc, &value, fault),
        Err(error) if error.is_memory() => None,
        Err(_) => Some(FaultPlace::Text),
    }
}
