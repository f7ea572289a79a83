//! The shape of a value of `serde_json`.
ghost use Rattle.std.specs.Prelude.{◌≡◌, map, option_map};
ghost use Rattle.serde_json.specs.View.{view};
ghost use Rattle.simulator.specs.Shapes.{has_members, list_in};

use serde_json::Value;

/// Whether the value is an object of so many members.
pub(crate) fn has_members(value: &Value, count: usize) -> bool
    ensures { result ≡ has_members count (view value.now) }
{
    match value.as_object() {
        Some(map) => map.len() == count,
        None => false,
    }
}

/// The items, where the value is a list.
pub(crate) fn items_of(value: &Value) -> Option<&[Value]>
    ensures { option_map (λ items. map view items.now) result ≡ list_in (view value.now) }
{
    match value.as_array() {
        Some(items) => Some(items.as_slice()),
        None => None,
    }
}
