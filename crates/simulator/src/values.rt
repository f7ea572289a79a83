//! Looking into a JSON value.
ghost use Rattle.std.specs.Prelude.{◌≡◌, ◌≤◌, map, Ok, Err, IfOk, IfErr};
ghost use Rattle.serde_json.specs.View.{view};
ghost use Rattle.simulator.specs.Values.{whole_item, items_at, within};

use crate::ScenarioFault;
use crate::shapes::items_of;
use serde_json::Value;

/// The whole number at a place in a list.
#[tactic(auto, unfolding(crate::specs::Values::whole_item))]
pub(crate) fn whole_item(items: &[Value], place: usize) -> Result<i64, ScenarioFault>
    ensures { result ≡ whole_item (map view items.now) place }
{
    match items.get(place) {
        Some(item) => item.as_i64().ok_or(ScenarioFault::Shape),
        None => Err(ScenarioFault::Shape),
    }
}

/// The items of the list at a key.
#[tactic(auto, unfolding(crate::specs::Values::items_at))]
pub(crate) fn items_at<'a>(value: &'a Value, key: &str) -> Result<&'a [Value], ScenarioFault>
    ensures ok { IfOk result (λ items. items_at key.now (view value.now) ≡ Ok (map view items.now)) }
    ensures err { IfErr result (λ fault. items_at key.now (view value.now) ≡ Err fault) }
{
    let list = value.get(key).ok_or(ScenarioFault::Shape)?;
    items_of(list).ok_or(ScenarioFault::Shape)
}

/// A number from `low` to `high`.
#[tactic(auto, unfolding(crate::specs::Values::within))]
pub(crate) fn within(low: u64, high: u64, number: i64) -> Result<u64, ScenarioFault>
    ensures value { result ≡ within low high number }
    ensures limits { IfOk result (λ n. (low ≤ n) × (n ≤ high)) }
{
    match u64::try_from(number) {
        Ok(number) if low <= number && number <= high => Ok(number),
        _ => Err(ScenarioFault::OutOfRange),
    }
}

/// A number of one byte.
pub(crate) fn byte_of(number: i64) -> Result<u8, ScenarioFault>
    ensures { result ≡ within 0 255 number }
{
    Ok(within(0, 255, number)? as u8)
}
