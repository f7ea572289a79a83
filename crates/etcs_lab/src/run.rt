//! The command `run`.

use crate::status::{Status, no_memory, unread_for, unwritten};
use image_lines::JsonLines;
use lab_play::{FaultPlace, fault_place};
use lab_why::{LateError, PlayedLife, play};
use simulator::{Scenario, ScenarioFault, ends_of, events_of};
use std::alloc::Global;
use std::fs;
use std::fs::File;
use std::io::Write;
use std::rt::Files;

// The life that a scenario asks for, or its first fault.
fn life_of(alloc: Global, scenario: &Scenario) -> Result<PlayedLife, ScenarioFault> {
    let (cold, steps) = events_of(alloc, scenario)?;
    let ends = ends_of(alloc, scenario)?;
    Ok(PlayedLife { cold, steps, ends })
}

// Says the fault of a scenario, as `etcs run` does, with its place; or that memory is refused.
fn refused<R: AllocGlobal + Eprint>(
    rt: &R,
    path: &str,
    scenario: &Scenario,
    fault: ScenarioFault,
) -> Status {
    let place = match fault {
        ScenarioFault::NoMemory => None,
        _ => fault_place(rt.alloc(), scenario, fault),
    };
    let Some(place) = place else {
        return no_memory(rt, path);
    };
    let (number, name) = (fault.number(), path.escape_debug());
    let wanted = place.wanted();
    let _ = eprint!(rt; "etcs_lab: {name}: refused {number} {fault}");
    if !matches!(place, FaultPlace::Text | FaultPlace::Whole) {
        let _ = eprint!(rt; " at {place}");
    }
    let _ = eprintln!(rt; "; wanted: {wanted}");
    Status::Refused
}

/// Plays a scenario on an image in memory, reports each output that is released, and answers the status.
pub(crate) fn played<R: Files<File = File> + AllocGlobal + Eprint, W: Write>(
    rt: &R,
    path: &str,
    out: &mut W,
) -> Result<Status, Status> {
    let bytes = fs::read(rt, path).map_err(|error| unread_for(rt, path, &error))?;
    let scenario = Scenario { bytes };
    let life = life_of(rt.alloc(), &scenario).map_err(|fault| refused(rt, path, &scenario, fault))?;
    match play(rt.alloc(), &life, &mut JsonLines::new(rt.alloc(), out)) {
        Ok(None) => Ok(Status::Whole),
        Ok(Some(_)) => Ok(Status::Refused),
        Err(LateError::Write) => Err(unwritten(rt, path)),
        Err(LateError::NoMemory) => Err(no_memory(rt, path)),
    }
}
