//! The groups of a scenario.
ghost use Rattle.std.specs.Prelude.{◌≡◌, ◌⊎◌, ◌≤◌, length, map, OnOk, IfErr};
ghost use Rattle.serde_json.specs.View.{view};
ghost use Rattle.simulator.specs.Groups.{are_texts, laid_one, laid, group, groups, whole_at};

use crate::ScenarioFault;
use crate::balise::Balise;
use crate::shapes::has_members;
use crate::telegrams::bytes_of;
use crate::values::{items_at, within};
use serde_json::Value;
use std::alloc::Global;

fn whole_at(value: &Value, key: &str) -> Option<i64>
    ensures { result ≡ whole_at key.now (view value.now) }
{
    value.get(key)?.as_i64()
}

fn are_texts(items: &[Value]) -> bool
    ensures { result ≡ are_texts (map view items.now) }
{
    for item in items {
        if !item.is_string() {
            return false;
        }
    }
    true
}

// Lays a balise at a place.
#[tactic(auto, unfolding(crate::specs::Groups::laid_one))]
fn lay_one(
    alloc: Global,
    at: u64,
    item: &Value,
    balises: &mut Vec<Balise>,
) -> Result<(), ScenarioFault>
    ensures ok { OnOk result (laid_one at (view item.now) balises.old.items ≡ Ok balises.new.items) }
    ensures err { IfErr result (λ fault. (fault ≡ ScenarioFault.NoMemory)
        ⊎ (laid_one at (view item.now) balises.old.items ≡ Err fault)) }
{
    let text = item.as_str().ok_or(ScenarioFault::Shape)?;
    let bytes = bytes_of(alloc, text)?;
    balises.push(Balise { at, bytes })?;
    Ok(())
}

// Lays balises so far apart, the first of them at a place.
fn lay(
    alloc: Global,
    first: u64,
    apart: u64,
    items: &[Value],
    balises: &mut Vec<Balise>,
) -> Result<(), ScenarioFault>
    requires few { length items.now ≤ 8 }
    requires near { first ≤ 100_000_000 }
    requires close { apart ≤ 1_200 }
    ensures ok { OnOk result (laid first apart (map view items.now) balises.old.items ≡ Ok balises.new.items) }
    ensures err { IfErr result (λ fault. (fault ≡ ScenarioFault.NoMemory)
        ⊎ (laid first apart (map view items.now) balises.old.items ≡ Err fault)) }
{
    let mut at = first;
    for item in items {
        lay_one(alloc, at, item, balises)?;
        at += apart;
    }
    Ok(())
}

/// Lays the balises of a group.
#[tactic(auto, unfolding(crate::specs::Groups::group))]
pub(crate) fn lay_group(
    alloc: Global,
    value: &Value,
    balises: &mut Vec<Balise>,
) -> Result<(), ScenarioFault>
    ensures ok { OnOk result (group (view value.now) balises.old.items ≡ Ok balises.new.items) }
    ensures err { IfErr result (λ fault. (fault ≡ ScenarioFault.NoMemory)
        ⊎ (group (view value.now) balises.old.items ≡ Err fault)) }
{
    if !has_members(value, 3) {
        return Err(ScenarioFault::Shape);
    }
    let at = whole_at(value, "at").ok_or(ScenarioFault::Shape)?;
    let spacing = whole_at(value, "spacing").ok_or(ScenarioFault::Shape)?;
    let items = items_at(value, "balises")?;
    if items.is_empty() || items.len() > 8 || !are_texts(items) {
        return Err(ScenarioFault::Shape);
    }
    let first = within(1, 100_000_000, at)?;
    let apart = within(1, 1_200, spacing)?;
    lay(alloc, first, apart, items, balises)
}

/// Lays the balises of all groups, after those before them.
pub(crate) fn lay_all(
    alloc: Global,
    items: &[Value],
    balises: &mut Vec<Balise>,
) -> Result<(), ScenarioFault>
    ensures ok { OnOk result (groups (map view items.now) balises.old.items ≡ Ok balises.new.items) }
    ensures err { IfErr result (λ fault. (fault ≡ ScenarioFault.NoMemory)
        ⊎ (groups (map view items.now) balises.old.items ≡ Err fault)) }
{
    for item in items {
        lay_group(alloc, item, balises)?;
    }
    Ok(())
}
