//! Powering up, sector by sector, and closing.
ghost use Rattle.std.specs.Prelude.{◌≡◌, ◌*◌, ℕ, List, None, length};
ghost use Rattle.unit_calls.specs.Contents.{closing};
ghost use Rattle.unit_calls.specs.Goings.{GoesOn, IsLeftOn};
ghost use Rattle.unit_calls.specs.Units.{BeginsUnit, Begins};

use crate::call_values::cold_of_number;
use crate::handle::{Content, EtcsUnit, Opened, handle_of, taken};
use crate::status::{Status, of_open};
use c_numbers::ABI;
use mode_table::Cold;
use onboard::{OpenError, Released};
use relayed_unit::{Going, UnitOpening};
use std::alloc::Global;

// Puts what came of going on into a handle that has nothing.
fn leave(unit: &mut EtcsUnit, place: Box<Content>, reported: Result<Going, OpenError>) -> Status
    requires { unit.old.raw.value ≡ None }
    ensures { IsLeftOn reported unit.new.raw.value result }
{
    let mut place = place;
    *place = match reported {
        Ok(Going::Wants(next)) => Content::PowerUp(next),
        Ok(Going::Open(powered_up)) => Content::Unit(Opened {
            unit: powered_up,
            last: Released::default(),
        }),
        Err(error) => return of_open(error),
    };
    *unit = handle_of(place);
    Status::Done
}

/// Goes on with a power-up as far as sectors are known. Done where one has to be read first, and it is in the handle then,
/// or where it is ended and the unit is there; else the status is that of the refusal, and nothing is.
pub fn go_on(
    alloc: Global,
    unit: &mut EtcsUnit,
    opening: UnitOpening,
    place: Box<Content>,
) -> Status
    requires { unit.old.raw.value ≡ None }
    ensures { GoesOn opening unit.new.raw.value result }
{
    let reported = opening.go_on(alloc);
    leave(unit, place, reported)
}

// Begins a power-up in a handle that has nothing.
fn begin(alloc: Global, unit: &mut EtcsUnit, sectors: u64, cold: Option<Cold>) -> Status
    ghost medium: { List ℕ }
    requires size { length medium ≡ 512 * sectors }
    requires none { unit.old.raw.value ≡ None }
    ensures { Begins medium sectors cold unit.new.raw.value result }
{
    let Some(cold) = cold else {
        return Status::OutOfRange;
    };
    let Ok(opening) = UnitOpening::begin(alloc, sectors, cold) else {
        return Status::OpenNoMemory;
    };
    match Box::new(alloc, Content::Nothing) {
        Ok(place) => go_on(alloc, unit, opening, place),
        Err(_) => Status::OpenNoMemory,
    }
}

/// Begins a power-up on a medium of so many sectors, of which none is known, and goes on up to the first one that has to
/// be read. Where a unit is open, or a power-up under way, nothing changes.
pub fn unit_begin_call(
    alloc: Global,
    unit: &mut EtcsUnit,
    sectors: u64,
    cold: u32,
    abi: u32,
) -> Status
    ghost medium: { List ℕ }
    requires { length medium ≡ 512 * sectors }
    ensures { BeginsUnit medium sectors cold abi unit.old.raw.value unit.new.raw.value result }
{
    if unit.is_open() {
        return Status::IsOpen;
    }
    if abi != ABI {
        return Status::OtherAbi;
    }
    begin(alloc, unit, sectors, cold_of_number(cold))
}

/// Closes it, or abandons its power-up.
pub fn unit_close_call(alloc: Global, unit: &mut EtcsUnit) -> Status
    ensures closed { unit.new.raw.value ≡ None }
    ensures reported { result ≡ closing unit.old.raw.value }
{
    match taken(alloc, unit) {
        Some(_) => Status::Done,
        None => Status::NotOpen,
    }
}
