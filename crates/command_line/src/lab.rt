//! The command line of `etcs_lab`. It is safe, and returns; which arguments give which command is tested.

use crate::lab_app::lab_app;
use clap::error::ErrorKind;
use clap::{ArgMatches, Error};
use std::alloc::{AllocError, Global};

/// An image, and how it is read.
#[derive(Clone, Copy)]
pub struct LabImage<'a> {
    /// The file.
    pub path: &'a str,
    /// As one of so many slots, whatever its first sector says.
    pub slots: Option<u32>,
}

/// What the arguments of `etcs_lab` ask for.
#[derive(Drop)]
pub enum LabCommand<'a> {
    /// Examine an image.
    Examine {
        image: LabImage<'a>,
        is_json: bool,
    },
    /// Print the events of an image: those of its journal, or all.
    Events {
        image: LabImage<'a>,
        all: bool,
    },
    /// Replay an image.
    Replay {
        image: LabImage<'a>,
        is_json: bool,
    },
    /// Examine and replay an image.
    Check {
        image: LabImage<'a>,
        is_json: bool,
    },
    /// Explain the brake commands of an image, at each change or at one event.
    Why {
        image: LabImage<'a>,
        event: Option<u64>,
        /// Whether what is known after each event is printed too.
        known: bool,
        is_json: bool,
    },
    /// Decode a telegram.
    Decode {
        hex: &'a str,
        is_json: bool,
    },
    /// List the packets of a telegram.
    Packets {
        hex: &'a str,
        is_json: bool,
    },
    /// Run a scenario.
    Run {
        scenario: &'a str,
    },
    /// Run many scenarios.
    Play {
        /// Where they are; without one on standard input.
        files: Vec<&'a str>,
        /// The slots of each journal.
        slots: Option<u32>,
        /// Which outputs are printed.
        outputs: Option<&'a str>,
        /// The folder for the images.
        folder: Option<&'a str>,
    },
}

fn image_of<'a>(matches: &ArgMatches<'a>) -> Option<LabImage<'a>> {
    let path = matches.get_str("IMAGE")?;
    let slots = matches.get_one::<u32>("slots");
    Some(LabImage { path, slots })
}

// The command of this name over an image.
fn image_command<'a>(name: &str, matches: &ArgMatches<'a>) -> Option<LabCommand<'a>> {
    let image = image_of(matches)?;
    let is_json = matches.get_flag("json");
    match name {
        "examine" => Some(LabCommand::Examine { image, is_json }),
        "events" => {
            let all = matches.get_flag("all");
            Some(LabCommand::Events { image, all })
        }
        "replay" => Some(LabCommand::Replay { image, is_json }),
        "check" => Some(LabCommand::Check { image, is_json }),
        "why" => {
            let event = matches.get_one::<u64>("EVENT");
            let known = matches.get_flag("known");
            Some(LabCommand::Why {
                image,
                event,
                known,
                is_json,
            })
        }
        _ => None,
    }
}

// The command of this name over a telegram, a scenario or an image.
fn single_command<'a>(name: &str, matches: &ArgMatches<'a>) -> Option<LabCommand<'a>> {
    let is_json = matches.get_flag("json");
    match name {
        "decode" => {
            let hex = matches.get_str("HEX")?;
            Some(LabCommand::Decode { hex, is_json })
        }
        "packets" => {
            let hex = matches.get_str("HEX")?;
            Some(LabCommand::Packets { hex, is_json })
        }
        "run" => {
            let scenario = matches.get_str("SCENARIO")?;
            Some(LabCommand::Run { scenario })
        }
        _ => image_command(name, matches),
    }
}

fn play_command<'a>(alloc: Global, matches: &ArgMatches<'a>) -> Result<LabCommand<'a>, AllocError> {
    let files = match matches.get_raw("FILE") {
        Some(files) => Vec::from_slice(alloc, files)?,
        None => Vec::new(alloc),
    };
    Ok(LabCommand::Play {
        files,
        slots: matches.get_one::<u32>("slots"),
        outputs: matches.get_str("outputs"),
        folder: matches.get_str("images"),
    })
}

fn matched_command<'a>(
    alloc: Global,
    matches: &ArgMatches<'a>,
) -> Result<Option<LabCommand<'a>>, AllocError> {
    match matches.subcommand() {
        Some(("play", inner)) => Ok(Some(play_command(alloc, inner)?)),
        Some((name, inner)) => Ok(single_command(name, inner)),
        None => Ok(None),
    }
}

/// Parses the arguments of `etcs_lab`, without the program's name. The error is the parser's answer: help or the version
/// where that is asked for, what is wrong with the arguments, or that memory was refused.
pub fn parse_lab<'a>(alloc: Global, args: &'a [String]) -> Result<LabCommand<'a>, Error> {
    let mut app = lab_app(alloc)?;
    let matches = app.try_get_matches_from_mut(args)?;
    match matched_command(alloc, &matches)? {
        Some(command) => Ok(command),
        // The parser has checked that a command and its arguments are there.
        None => Err(app.error(ErrorKind::MissingSubcommand, "there is no command")?),
    }
}
