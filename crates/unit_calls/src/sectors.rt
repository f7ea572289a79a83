//! Handing in a sector of the medium.
ghost use Rattle.std.specs.Prelude.{◌≡◌};
ghost use Rattle.unit_calls.specs.Goings.{Resumes};
ghost use Rattle.unit_calls.specs.Openings.{Provides as ProvidesOpening};
ghost use Rattle.unit_calls.specs.Sectors.{Provides, ProvidesOn};
ghost use Rattle.unit_calls.specs.Units.{ProvidesTo};

use crate::handle::{Content, EtcsUnit, Opened, taken};
use crate::opening::go_on;
use crate::relaying::prepare;
use crate::status::Status;
use disk::SECTOR_BYTES;
use relayed_unit::UnitOpening;
use std::alloc::Global;
use std::mem;

// Hands in what the medium holds of a sector.
fn provide(opened: &mut Opened, sector: u64, bytes: &[u8]) -> Status
    ensures { Provides sector bytes.now opened.old opened.new result }
{
    let Ok(bytes) = <&[u8; SECTOR_BYTES]>::try_from(bytes) else {
        return Status::OutOfRange;
    };
    if opened.unit.provide(sector, bytes) {
        Status::Done
    } else {
        Status::OutOfRange
    }
}

// Hands in what the medium holds of a sector, and goes on with the flush that wanted one.
fn provide_and_go_on(opened: &mut Opened, sector: u64, bytes: &[u8]) -> Status
    ensures { ProvidesOn sector bytes.now opened.old opened.new result }
{
    let is_wanted = opened.unit.wanted().is_some();
    let provided = provide(opened, sector, bytes);
    if is_wanted && provided.is_done() {
        prepare(opened)
    } else {
        provided
    }
}

// The same of a power-up, which doesn't go on yet.
fn provide_opening(opening: &mut UnitOpening, sector: u64, bytes: &[u8]) -> Status
    ensures { ProvidesOpening sector bytes.now opening.old opening.new result }
{
    let Ok(bytes) = <&[u8; SECTOR_BYTES]>::try_from(bytes) else {
        return Status::OutOfRange;
    };
    if opening.provide(sector, bytes) {
        Status::Done
    } else {
        Status::OutOfRange
    }
}

// Goes on with the power-up of a handle.
fn resume(alloc: Global, unit: &mut EtcsUnit) -> Status
    ensures { Resumes unit.old.raw.value unit.new.raw.value result }
{
    let Some(mut place) = taken(alloc, unit) else {
        return Status::NotOpen;
    };
    match mem::replace(&mut *place, Content::Nothing) {
        Content::PowerUp(opening) => go_on(alloc, unit, opening, place),
        Content::Nothing | Content::Unit(_) => Status::NotOpen,
    }
}

/// Hands in what the medium holds of a sector, and goes on with the power-up that is under way, or with the flush that
/// wanted one, whose status it reports then. OutOfRange where the medium has no such sector, or these bytes aren't as many
/// as a sector has, and then nothing changes.
pub fn unit_provide_call(alloc: Global, unit: &mut EtcsUnit, sector: u64, bytes: &[u8]) -> Status
    ensures { ProvidesTo sector bytes.now unit.old.raw.value unit.new.raw.value result }
{
    if !unit.is_open() {
        return Status::NotOpen;
    }
    let provided = match unit.raw.as_mut() {
        Content::Unit(opened) => return provide_and_go_on(opened, sector, bytes),
        Content::PowerUp(opening) => provide_opening(opening, sector, bytes),
        Content::Nothing => return Status::NotOpen,
    };
    if provided.is_done() {
        resume(alloc, unit)
    } else {
        provided
    }
}
