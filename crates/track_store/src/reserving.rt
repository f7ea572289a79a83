//! A list gets capacity for more elements, at the cost of those that it has.
ghost use Rattle.std.specs.Prelude.{◌≡◌, ◌≤◌, ◌+◌, OnOk, vec_len, vec_capacity};

use units::NoMemory;

/// What `Vec::reserve` does, and to the same capacity. But where most of the old capacity is unused, as after a group
/// that needed less than was made for it, only the elements are copied. NoMemory where memory is refused, and then
/// nothing changes.
pub fn reserve<T: Copy>(items: &mut Vec<T>, more: usize) -> Result<(), NoMemory>
    ensures items { items.new.items ≡ items.old.items }
    ensures len { vec_len items.new ≡ vec_len items.old }
    ensures ok { OnOk result (vec_len items.new + more ≤ vec_capacity items.new) }
    ensures capacity { vec_capacity items.old ≤ vec_capacity items.new }
{
    let Some(needed) = items.len().checked_add(more) else {
        return Err(NoMemory);
    };
    let capacity = items.capacity();
    if needed <= capacity || capacity / 2 <= items.len() {
        items.reserve(more)?;
        return Ok(());
    }
    let larger = needed.max(capacity.saturating_mul(2));
    let mut moved = Vec::with_capacity(*items.allocator(), larger)?;
    moved.extend_from_slice(items.as_slice())?;
    *items = moved;
    Ok(())
}
