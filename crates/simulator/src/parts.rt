//! The faults of the parts of a scenario, each part by itself.
ghost use Rattle.std.specs.Prelude.{◌≡◌, ◌⊎◌, [], Some};
ghost use Rattle.std.specs.Result.{result_err};
ghost use Rattle.serde_json.specs.View.{view};
ghost use Rattle.simulator.specs.Groups.{group};
ghost use Rattle.simulator.specs.Lives.{cold_of};
ghost use Rattle.simulator.specs.Steps.{step_of};

use crate::ScenarioFault;
use crate::asking::step_of;
use crate::groups::lay_group;
use crate::lives::cold_in;
use serde_json::Value;
use std::alloc::Global;

/// The fault of the value of `cold`.
pub fn fault_of_cold(value: &Value) -> Option<ScenarioFault>
    ensures { result ≡ result_err (cold_of (Some (view value.now))) }
{
    cold_in(value).err()
}

/// The fault of a group. NoMemory may come in its place.
pub fn fault_of_group(alloc: Global, value: &Value) -> Option<ScenarioFault>
    ensures { (result ≡ Some ScenarioFault.NoMemory) ⊎ (result ≡ result_err (group (view value.now) [])) }
{
    let mut balises = Vec::new(alloc);
    lay_group(alloc, value, &mut balises).err()
}

/// The fault of a step. NoMemory may come in its place.
pub fn fault_of_step(alloc: Global, value: &Value) -> Option<ScenarioFault>
    ensures { (result ≡ Some ScenarioFault.NoMemory) ⊎ (result ≡ result_err (step_of (view value.now))) }
{
    step_of(alloc, value).err()
}
