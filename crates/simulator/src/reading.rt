//! From the bytes of a file to the steps of a life.
ghost use Rattle.std.specs.Prelude.{◌≡◌, ◌⊎◌, IfOk, IfErr};
ghost use Rattle.serde_json.specs.Data.{Data};
ghost use Rattle.serde_json.specs.View.{view};
ghost use Rattle.simulator.specs.Scenarios.{IsReading, Describes, FaultOf, DescribesEnds, EndsFault};

use crate::fault::ScenarioFault;
use crate::lives::life_of;
use events::Step;
use mode_table::Cold;
use serde_json::Value;
use std::alloc::Global;

/// A scenario: the bytes of its file (this project's profile).
#[derive(Drop)]
pub struct Scenario {
    /// The bytes, of a JSON value in UTF-8.
    pub bytes: Vec<u8>,
}

// The JSON value of the scenario.
fn value_of(alloc: Global, scenario: &Scenario) -> Result<Value, ScenarioFault>
    ensures ok { IfOk result (λ value. IsReading scenario.now.bytes.items (view value)) }
    ensures err { IfErr result (λ fault. (fault ≡ ScenarioFault.NoMemory)
        ⊎ ((fault ≡ ScenarioFault.NotJson) × ((d : Data) → ¬ IsReading scenario.now.bytes.items d))) }
{
    match Value::from_slice(alloc, scenario.bytes.as_slice()) {
        Ok(value) => Ok(value),
        Err(error) if error.is_memory() => Err(ScenarioFault::NoMemory),
        Err(_) => Err(ScenarioFault::NotJson),
    }
}

/// What the train knows of movements without power, and the steps of the life that the scenario asks for; or its first
/// fault. The faults come in this order: NotJson; the keys of the object; the value of `cold`; the groups; the steps;
/// in each item its shape, and then its numbers and texts. NoMemory may come in the place of any of them.
pub fn events_of(alloc: Global, scenario: &Scenario) -> Result<(Cold, Vec<Step>), ScenarioFault>
    ensures ok { IfOk result (λ life. Describes scenario.now.bytes.items life.0 life.1.items) }
    ensures err { IfErr result (λ fault. (fault ≡ ScenarioFault.NoMemory) ⊎ FaultOf scenario.now.bytes.items fault) }
{
    life_of(alloc, &value_of(alloc, scenario)?)
}

/// Of each step of the scenario, how many steps of the life that `events_of` answers there are up to its end: so the
/// step at a place of that life comes from the first step of the scenario whose end is beyond the place; a last flush
/// comes from none. An error is NotJson, or the first fault of the groups and the steps; NoMemory may come in the place
/// of any.
pub fn ends_of(alloc: Global, scenario: &Scenario) -> Result<Vec<usize>, ScenarioFault>
    ensures ok { IfOk result (λ ends. DescribesEnds scenario.now.bytes.items ends.items) }
    ensures err { IfErr result (λ fault. (fault ≡ ScenarioFault.NoMemory) ⊎ EndsFault scenario.now.bytes.items fault) }
{
    crate::ends::ends_of(alloc, &value_of(alloc, scenario)?)
}
