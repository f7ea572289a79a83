//! From inputs to outputs: preparing, requests, releasing.
ghost use Rattle.std.specs.Prelude.{◌≡◌};
ghost use Rattle.unit_calls.specs.Contents.{OnUnit, OnUnitInto};
ghost use Rattle.unit_calls.specs.Handles.{Prepares, SaysNext, Fails, Releases, ReleasesAfterReads, DescribesState};
ghost use Rattle.unit_calls.specs.Openings.{DescribesRead};
ghost use Rattle.unit_calls.specs.Outputs.{last_of};
ghost use Rattle.unit_calls.specs.declared.status.Status.TheVariants.{Done};
ghost use Rattle.unit_calls.specs.Requests.{DescribesRequest, DescribesNext};
ghost use Rattle.unit_calls.specs.Units.{FailsUnit, RequestsOf};

use crate::call_values::{EtcsRequest, describe_write, read_of, sync};
use crate::handle::{Content, EtcsUnit, Opened};
use crate::opening::unit_close_call;
use crate::outputs::{EtcsOutput, EtcsState, description_of, hand_out};
use crate::status::{Status, of_prepare, of_release};
use disk::Call;
use events::MOST_PENDING;
use onboard::Released;
use relayed_unit::UnitOpening;
use std::alloc::Global;

/// Flushes what is pending onto the disk that hands out its requests; Done also where a sector has to be read first.
pub fn prepare(opened: &mut Opened) -> Status
    ensures { Prepares opened.old opened.new result }
{
    of_prepare(opened.unit.prepare())
}

/// Flushes what is pending onto the disk that hands out its requests; Done also where a sector has to be read first.
pub fn prepare_call(unit: &mut EtcsUnit) -> Status
    ensures { OnUnit unit.old.raw.value unit.new.raw.value result Prepares }
{
    on_unit!(unit, opened => prepare(opened))
}

// Reports a request of a unit.
fn describe(opened: &Opened, index: usize, request: &mut EtcsRequest, bytes: &mut [u8]) -> Status
    ensures { DescribesRequest index opened.now
        (record { request = request.old; reported = request.new; caller_buffer = bytes.old; bytes = bytes.new; status = result }) }
{
    match opened.unit.request(index) {
        Some(Call::Written(span)) => {
            describe_write(
                span.first,
                span.sectors,
                opened.unit.bytes_of(span),
                request,
                bytes,
            )
        }
        Some(_) => {
            *request = sync();
            Status::Done
        }
        None => Status::NoSuchRequest,
    }
}

// Reports what is to be done next: to read the sector that is wanted, or else the first request that isn't done.
fn describe_next(opened: &Opened, request: &mut EtcsRequest, bytes: &mut [u8]) -> Status
    ensures { DescribesNext opened.now
        (record { request = request.old; reported = request.new; caller_buffer = bytes.old; bytes = bytes.new; status = result }) }
{
    match opened.unit.wanted() {
        Some(sector) => {
            *request = read_of(sector);
            Status::Done
        }
        None => describe(opened, opened.unit.done_count(), request, bytes),
    }
}

// Reports the sector that a power-up wants, as one to be read.
fn describe_read(opening: &UnitOpening, request: &mut EtcsRequest) -> Status
    ensures { DescribesRead opening.now request.old request.new result }
{
    match opening.wanted() {
        Some(sector) => {
            *request = read_of(sector);
            Status::Done
        }
        None => Status::NoSuchRequest,
    }
}

/// Reports what is to be done next on the medium: the sector that has to be read, or the first request that isn't done,
/// with the bytes that it writes; NoSuchRequest where nothing is.
pub fn unit_request_call(unit: &mut EtcsUnit, request: &mut EtcsRequest, bytes: &mut [u8]) -> Status
    ensures { RequestsOf unit.old.raw.value unit.new.raw.value
        (record { request = request.old; reported = request.new; caller_buffer = bytes.old; bytes = bytes.new; status = result }) }
{
    if !unit.is_open() {
        return Status::NotOpen;
    }
    match unit.raw.as_mut() {
        Content::Unit(opened) => describe_next(opened, request, bytes),
        Content::PowerUp(opening) => describe_read(opening, request),
        Content::Nothing => Status::NotOpen,
    }
}

// Says that the first request that wasn't done is done.
fn say(opened: &mut Opened) -> Status
    ensures { SaysNext opened.old opened.new result }
{
    let done = opened.unit.done_count();
    if done >= opened.unit.count() {
        return Status::NoSuchRequest;
    }
    if opened.unit.done(done + 1) {
        Status::Done
    } else {
        Status::NoSuchRequest
    }
}

/// Says that the first request that wasn't done is done; NoSuchRequest where all are, and then nothing changes.
pub fn done_call(unit: &mut EtcsUnit) -> Status
    ensures { OnUnit unit.old.raw.value unit.new.raw.value result SaysNext }
{
    on_unit!(unit, opened => say(opened))
}

// Says that the medium failed.
fn fail(opened: &mut Opened) -> Status
    ensures { Fails opened.old opened.new result }
{
    opened.unit.fail();
    Status::Done
}

/// Says that the medium failed. A power-up that is under way is abandoned.
pub fn unit_fail_call(alloc: Global, unit: &mut EtcsUnit) -> Status
    ensures { FailsUnit unit.old.raw.value unit.new.raw.value result }
{
    if !unit.is_open() {
        return Status::NotOpen;
    }
    match unit.raw.as_mut() {
        Content::Unit(opened) => fail(opened),
        Content::PowerUp(_) => unit_close_call(alloc, unit),
        Content::Nothing => Status::NotOpen,
    }
}

// The last output, or the one before.
fn last_of(released: &[Released], before: Released) -> Released
    ensures { result ≡ last_of released.now before }
{
    match released.last() {
        Some(last) => *last,
        None => before,
    }
}

// Releases what was held back into a buffer for eight.
fn release(opened: &mut Opened, outputs: &mut [EtcsOutput], count: &mut u32) -> Status
    ensures { Releases opened.old opened.new
        (record { places = outputs.old; handed = outputs.new; counted = count.old; count = count.new; status = result }) }
{
    if outputs.len() < MOST_PENDING {
        return Status::NoRoom;
    }
    match opened.unit.release() {
        Ok(released) => {
            hand_out(released.as_slice(), outputs);
            *count = released.len() as u32;
            opened.last = last_of(released.as_slice(), opened.last);
            Status::Done
        }
        Err(error) => of_release(error),
    }
}

// The same, but refused where a sector has to be read first.
fn release_after_reads(opened: &mut Opened, outputs: &mut [EtcsOutput], count: &mut u32) -> Status
    ensures { ReleasesAfterReads opened.old opened.new
        (record { places = outputs.old; handed = outputs.new; counted = count.old; count = count.new; status = result }) }
{
    let is_wanted = opened.unit.wanted().is_some();
    let has_failed = opened.unit.has_failed();
    if is_wanted && !has_failed {
        return Status::RequestsOwed;
    }
    release(opened, outputs, count)
}

/// Releases what was held back, all of it, into a buffer for eight; a refusal writes nothing.
pub fn release_call(unit: &mut EtcsUnit, outputs: &mut [EtcsOutput], count: &mut u32) -> Status
    ensures { OnUnitInto ((outputs.new ≡ outputs.old) × (count.new ≡ count.old))
        unit.old.raw.value unit.new.raw.value result (λ before after reported. ReleasesAfterReads before after
        (record { places = outputs.old; handed = outputs.new; counted = count.old; count = count.new; status = reported })) }
{
    on_unit!(unit, opened => release_after_reads(opened, outputs, count))
}

// How far this unit is.
fn state_of(opened: &Opened) -> EtcsState
    ensures { DescribesState opened.now result }
{
    let life = opened.unit.life_now();
    EtcsState {
        last: description_of(&opened.last),
        requests: opened.unit.count() as u64,
        done: opened.unit.done_count() as u64,
        held: opened.unit.held() as u64,
        has_failed: u64::from(opened.unit.has_failed()),
        pending: life.pending as u64,
        moment: life.moment.get(),
        estimate: life.estimate.get(),
        uncertainty: life.uncertainty,
    }
}

// Reports how far this unit is.
fn describe_state(opened: &Opened, state: &mut EtcsState) -> Status
    ensures { (result ≡ Done) × DescribesState opened.now state.new }
{
    *state = state_of(opened);
    Status::Done
}

/// Reports how far the unit is.
pub fn state_call(unit: &mut EtcsUnit, state: &mut EtcsState) -> Status
    ensures { OnUnitInto (state.new ≡ state.old) unit.old.raw.value unit.new.raw.value result
        (λ before after reported. (after ≡ before) × (reported ≡ Done) × DescribesState before state.new) }
{
    on_unit!(unit, opened => describe_state(opened, state))
}
