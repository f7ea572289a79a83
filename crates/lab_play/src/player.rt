//! Plays the scenarios of a line, and prints its line.

use crate::faults::place_in;
use crate::image_file::write_image;
use crate::request::{LineFault, Request};
use crate::result_line::{
    LifeOptions, Named, Outputs, begin_lives, end_lives, write_fault, write_next,
    write_next_unplayed, write_played, write_refused, write_unplayed,
};
use command_line::lab_status::{Status, reported};
use disk::Memory;
use scenario_player::{LiveError, PlayError, Played, calls_for, image_of, play, play_after};
use serde_json::Value;
use simulator::{Scenario, ScenarioFault, ends_of};
use std::alloc::Global;
use std::fs::File;
use std::io::Write;
use std::rt::Files;

/// What was played of all files.
#[derive(Clone, Copy)]
pub(crate) struct Totals {
    /// How many lives were played, and lines weren't.
    pub count: u64,
    /// Whether each life was played to its end.
    pub all_done: bool,
    /// Whether each file could be read.
    pub all_read: bool,
}

impl Totals {
    /// How the command ends.
    pub(crate) fn status(self) -> Status {
        if !self.all_read {
            Status::Device
        } else if !self.all_done {
            Status::Refused
        } else {
            Status::Whole
        }
    }
}

/// The scenarios of a file, as far as they were played.
#[derive(Drop)]
pub(crate) struct Player<'a> {
    pub path: &'a str,
    /// The name of the file for its lines; None where there is no other file.
    pub name: Option<&'a Value>,
    pub slots: u32,
    pub outputs: Outputs,
    pub folder: Option<&'a str>,
    /// Whether it was reported that the file, or its end, isn't played.
    pub was_left: bool,
    pub totals: Totals,
}

/// Which scenario it is, and where its text is in its line.
#[derive(Clone, Copy)]
pub(crate) struct Source<'v> {
    pub named: Named<'v>,
    pub pointer: &'static str,
    /// Its number in a list, from 0 on.
    pub element: Option<usize>,
}

// The step of the scenario at which a life stopped.
fn step_of(alloc: Global, scenario: &Value, error: LiveError) -> Option<u64> {
    let place = match error {
        LiveError::Open(_) => return None,
        LiveError::Accept(place, _) => place,
        LiveError::Flush(place, _) => place,
        LiveError::NoMemory(place) => place,
    };
    let bytes = scenario.to_vec(alloc).ok()?;
    let ends = ends_of(alloc, &Scenario { bytes }).ok()?;
    let mut step = 0u64;
    for end in ends.as_slice() {
        if *end > place {
            break;
        }
        step = step.saturating_add(1);
    }
    Some(step)
}

// Which of some scenarios on one journal it is.
#[derive(Clone, Copy)]
enum Turn<'v> {
    // The only one.
    Only(Named<'v>),
    // The first one of a list.
    First,
    // A later one of a list.
    Later,
}

// What is read of a life's image.
#[derive(Drop)]
enum Image {
    Unread,
    Read(Vec<u8>),
    NoMemory,
}

impl<'a> Player<'a> {
    /// What is left of the file isn't played, for a reason of this status.
    pub(crate) fn leave_unread(&mut self, status: Status) {
        self.was_left = true;
        match status {
            Status::Device => self.totals.all_read = false,
            _ => self.totals.all_done = false,
        }
    }

    // The image of a life, where it is wanted.
    fn read_image(&self, alloc: Global, digest: bool, disk: &mut Memory) -> Image {
        if !digest && self.folder.is_none() {
            return Image::Unread;
        }
        match image_of(alloc, disk) {
            Ok(image) => Image::Read(image),
            Err(_) => Image::NoMemory,
        }
    }

    // Writes the image of a life into the folder, and answers its number.
    fn keep_image<R: Files<File = File> + AllocGlobal + Eprint>(
        &self,
        rt: &R,
        image: Option<&[u8]>,
    ) -> Result<Option<u64>, Status> {
        match (self.folder, image) {
            (Some(folder), Some(image)) => {
                write_image(rt, folder, self.totals.count, image)?;
                Ok(Some(self.totals.count))
            }
            _ => Ok(None),
        }
    }

    // Prints that memory was refused for a scenario.
    fn print_unplayed<R: Eprint, W: Write>(
        &mut self,
        rt: &R,
        turn: Turn<'_>,
        out: &mut W,
    ) -> Result<(), Status> {
        self.totals.all_done = false;
        let written = match turn {
            Turn::Only(named) => write_unplayed(named, "no_memory", "NoMemory", out),
            Turn::First => write_next_unplayed(false, out),
            Turn::Later => write_next_unplayed(true, out),
        };
        reported(rt, self.path, written)
    }

    // Prints a life that was played.
    fn print_played<R: Files<File = File> + AllocGlobal + Eprint, W: Write>(
        &mut self,
        rt: &R,
        turn: Turn<'_>,
        scenario: &Value,
        played: &mut Played,
        digest: bool,
        out: &mut W,
    ) -> Result<(), Status> {
        self.totals.count = self.totals.count.saturating_add(1);
        let bytes = match self.read_image(rt.alloc(), digest, &mut played.disk) {
            Image::Unread => None,
            Image::Read(image) => Some(image),
            Image::NoMemory => return self.print_unplayed(rt, turn, out),
        };
        let image = match &bytes {
            Some(image) => Some(image.as_slice()),
            None => None,
        };
        let step = match played.ended {
            Ok(()) => None,
            Err(error) => {
                self.totals.all_done = false;
                step_of(rt.alloc(), scenario, error)
            }
        };
        let options = LifeOptions {
            outputs: self.outputs,
            step,
            digested: if digest { image } else { None },
            image: self.keep_image(rt, image)?,
        };
        let written = match turn {
            Turn::Only(named) => write_played(named, played, options, out),
            Turn::First => write_next(false, played, options, out),
            Turn::Later => write_next(true, played, options, out),
        };
        reported(rt, self.path, written)
    }

    /// Prints the line of a line that memory was refused for.
    pub(crate) fn print_no_memory<R: Eprint, W: Write>(
        &mut self,
        rt: &R,
        named: Named<'_>,
        out: &mut W,
    ) -> Result<(), Status> {
        self.totals.count = self.totals.count.saturating_add(1);
        self.print_unplayed(rt, Turn::Only(named), out)
    }

    // Prints the line of a line whose scenario has a fault.
    fn print_fault<R: AllocGlobal + Eprint, W: Write>(
        &mut self,
        rt: &R,
        source: Source<'_>,
        scenario: &Value,
        fault: ScenarioFault,
        out: &mut W,
    ) -> Result<(), Status> {
        let place = match fault {
            ScenarioFault::NoMemory => None,
            _ => place_in(rt.alloc(), scenario, fault),
        };
        let Some(place) = place else {
            return self.print_no_memory(rt, source.named, out);
        };
        self.totals.count = self.totals.count.saturating_add(1);
        self.totals.all_done = false;
        reported(rt, self.path, write_refused(source, place, fault, out))
    }

    /// Prints the line of a line that has a fault.
    pub(crate) fn print_line_fault<R: Eprint, W: Write>(
        &mut self,
        rt: &R,
        named: Named<'_>,
        found: &LineFault,
        out: &mut W,
    ) -> Result<(), Status> {
        if let ScenarioFault::NoMemory = found.fault {
            return self.print_no_memory(rt, named, out);
        }
        self.totals.count = self.totals.count.saturating_add(1);
        self.totals.all_done = false;
        reported(rt, self.path, write_fault(named, found, out))
    }

    fn slots_of(&self, request: Request) -> u32 {
        match request.slots {
            Some(slots) => slots,
            None => self.slots,
        }
    }

    // Plays a scenario, and prints its line.
    fn play_one<R: Files<File = File> + AllocGlobal + Eprint, W: Write>(
        &mut self,
        rt: &R,
        source: Source<'_>,
        scenario: &Value,
        request: Request,
        out: &mut W,
    ) -> Result<(), Status> {
        match play(
            rt.alloc(),
            scenario,
            request.cold,
            self.slots_of(request),
            0,
        ) {
            Ok(played) => {
                let mut played = played;
                self.print_played(
                    rt,
                    Turn::Only(source.named),
                    scenario,
                    &mut played,
                    request.digest,
                    out,
                )
            }
            Err(PlayError::Scenario(fault)) => self.print_fault(rt, source, scenario, fault, out),
            Err(_) => self.print_no_memory(rt, source.named, out),
        }
    }

    // Plays the scenarios of a list, each on the journal that the one before left, and prints their line.
    fn play_list<R: Files<File = File> + AllocGlobal + Eprint, W: Write>(
        &mut self,
        rt: &R,
        source: Source<'_>,
        scenarios: &[Value],
        request: Request,
        out: &mut W,
    ) -> Result<(), Status> {
        let mut calls = 0u64;
        for (element, scenario) in scenarios.iter().enumerate() {
            match calls_for(rt.alloc(), scenario, self.slots_of(request)) {
                Ok(more) => calls = calls.saturating_add(more),
                Err(PlayError::Scenario(fault)) => {
                    let source = Source {
                        element: Some(element),
                        ..source
                    };
                    return self.print_fault(rt, source, scenario, fault, out);
                }
                Err(_) => return self.print_no_memory(rt, source.named, out),
            }
        }
        reported(rt, self.path, begin_lives(source.named, out))?;
        self.play_in_turn(rt, scenarios, request, calls, out)?;
        reported(rt, self.path, end_lives(out))
    }

    /// Plays a scenario or those of a list, and prints their line.
    pub(crate) fn play_value<R: Files<File = File> + AllocGlobal + Eprint, W: Write>(
        &mut self,
        rt: &R,
        source: Source<'_>,
        value: &Value,
        request: Request,
        out: &mut W,
    ) -> Result<(), Status> {
        match value.as_array() {
            Some(list) if list.is_empty() => {
                let found = LineFault {
                    fault: ScenarioFault::Shape,
                    pointer: source.pointer,
                    wanted: "a scenario, or a list of scenarios",
                };
                self.print_line_fault(rt, source.named, &found, out)
            }
            Some(list) => self.play_list(rt, source, list.as_slice(), request, out),
            None => self.play_one(rt, source, value, request, out),
        }
    }

    // Plays scenarios, each on the journal that the one before left, up to one that memory is refused for.
    fn play_in_turn<R: Files<File = File> + AllocGlobal + Eprint, W: Write>(
        &mut self,
        rt: &R,
        scenarios: &[Value],
        request: Request,
        calls: u64,
        out: &mut W,
    ) -> Result<(), Status> {
        let mut left: Option<Memory> = None;
        for scenario in scenarios {
            let (turn, done) = match left {
                Some(disk) => (
                    Turn::Later,
                    play_after(rt.alloc(), disk, scenario, request.cold),
                ),
                None => (
                    Turn::First,
                    play(
                        rt.alloc(),
                        scenario,
                        request.cold,
                        self.slots_of(request),
                        calls,
                    ),
                ),
            };
            let Ok(played) = done else {
                return self.print_unplayed(rt, turn, out);
            };
            let mut played = played;
            self.print_played(rt, turn, scenario, &mut played, request.digest, out)?;
            left = Some(played.disk);
        }
        Ok(())
    }
}
