//! Scenarios, end to end.
ghost use Rattle.sessions.specs.Sessions.{Plays};

use crate::images::Image;
use crate::lives::run_life;
use crate::refusals::refuse_scenario;
use disk::Disk;
use file_disk::FileDisk;
use simulator::{Scenario, ScenarioFault, events_of};
use std::alloc::Global;
use std::fs::File;
use std::io::Write;
use std::rt::Files;
use std::{fs, io};
use text_output::{Status, describe};

/// One life, by the steps that the bytes of a scenario report, on the image that a call opens. The scenario is judged
/// before the image is opened. It hands on what became of the image, and the writer back, and answers the status that
/// the program ends with: where the scenario has a fault or memory is refused, the fault's line is written and the
/// image not opened; where it can't be opened, `device` is written; else the lines of `run_life`. The error is that of
/// a write.
pub fn play<D: Disk, O: FnOnce() -> Option<D>, W: Write>(
    alloc: Global,
    scenario: &Scenario,
    opener: O,
    out: W,
) -> (Image<D, O>, W, io::Result<Status>)
    requires { O.pre opener }
    ensures reported { Plays D.state O.post scenario.now.bytes.items opener result.0 (W.contents out) (W.contents result.1)
        result.2 }
{
    let mut out = out;
    let (cold, steps) = match events_of(alloc, scenario) {
        Ok(life) => life,
        Err(fault) => {
            let status = refuse_scenario(fault, &mut out);
            return (Image::Unopened(opener), out, status);
        }
    };
    let Some(disk) = opener() else {
        let status = describe(&mut out, "device", Status::Device);
        return (Image::Missing, out, status);
    };
    let (disk, status) = run_life(alloc, disk, cold, steps.as_slice(), &mut out);
    (Image::Opened(disk), out, status)
}

/// One life, by the steps of a scenario in a file, on an image in a file, which is held for this life alone. Where the
/// scenario's file can't be read, and where the image can't be opened or another program holds it, `device` is written.
/// The error is that of a write.
pub fn run_scenario<R: Files<File = File> + AllocGlobal, W: Write>(
    rt: &R,
    scenario: &str,
    image: &str,
    out: &mut W,
) -> io::Result<Status> {
    let bytes = match fs::read(rt, scenario) {
        Ok(bytes) => bytes,
        Err(error) if error.kind() == io::ErrorKind::OutOfMemory => {
            return refuse_scenario(ScenarioFault::NoMemory, out);
        }
        Err(_) => return describe(out, "device", Status::Device),
    };
    let opener = || FileDisk::open(rt, image).ok();
    let (_, _, status) = play(rt.alloc(), &Scenario { bytes }, opener, out);
    status
}
