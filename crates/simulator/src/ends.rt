//! Which steps of a life come from which step of a scenario.
ghost use Rattle.std.specs.Prelude.{◌≡◌, ◌⊎◌, [], map, codes, IfOk, IfErr, Ok, Err};
ghost use Rattle.serde_json.specs.View.{view};
ghost use Rattle.simulator.specs.Course.{start};
ghost use Rattle.simulator.specs.Passing.{passed};
ghost use Rattle.simulator.specs.Lives.{ends_by, ends_in};

use crate::ScenarioFault;
use crate::asking::step_of;
use crate::driving::Course;
use crate::lives::track_of;
use crate::track::Track;
use crate::values::items_at;
use serde_json::Value;
use std::alloc::Global;

// After each step, how many steps the life has so far.
fn ends_by(alloc: Global, track: &Track, items: &[Value]) -> Result<Vec<usize>, ScenarioFault>
    ensures ok { IfOk result (λ ends. ends_by (passed track.now.balises.items) (map view items.now) start []
        ≡ Ok ends.items) }
    ensures err { IfErr result (λ fault. (fault ≡ ScenarioFault.NoMemory)
        ⊎ (ends_by (passed track.now.balises.items) (map view items.now) start [] ≡ Err fault)) }
{
    let mut course = Course::new(alloc);
    let mut ends = Vec::new(alloc);
    for item in items {
        let step = step_of(alloc, item)?;
        course.take(track, step)?;
        ends.push(course.steps.len())?;
    }
    Ok(ends)
}

/// Of each step of a scenario, how many steps of the life that `life_of` answers there are up to its end: so the step
/// at a place of that life comes from the first step of the scenario whose end is beyond the place; a last flush comes
/// from none. An error is the first fault of the groups and the steps; NoMemory may come in the place of any.
#[tactic(auto, unfolding(crate::specs::Lives::ends_in))]
pub(crate) fn ends_of(alloc: Global, value: &Value) -> Result<Vec<usize>, ScenarioFault>
    ensures ok { IfOk result (λ ends. ends_in (view value.now) ≡ Ok ends.items) }
    ensures err { IfErr result (λ fault. (fault ≡ ScenarioFault.NoMemory) ⊎ (ends_in (view value.now) ≡ Err fault)) }
{
    let groups = items_at(value, "groups")?;
    let track = track_of(alloc, groups)?;
    let items = items_at(value, "steps")?;
    ends_by(alloc, &track, items)
}
