//! The lines that `play` prints.

use crate::digits::digits_of;
use crate::faults::FaultPlace;
use crate::player::Source;
use crate::request::LineFault;
use events::{Brake, Indications, Output};
use image_lines::named_indications;
use mode_table::{Mode, TrainLevel};
use scenario_player::{LiveError, Played, Released};
use serde_json::Value;
use sessions::of_stop;
use sha2::{Digest, Sha256};
use simulator::ScenarioFault;
use std::io;
use std::io::Write;
use text_output::{Form, Piece, are_same, brake_name, known, mode_name, write_pieces};

/// Which outputs are printed.
#[derive(Clone, Copy)]
pub(crate) enum Outputs {
    /// Each one.
    All,
    /// The last one.
    Last,
    /// Each one that differs from the one before.
    Changes,
    /// None.
    None,
}

impl Outputs {
    /// The outputs of this name.
    pub(crate) fn of(name: &str) -> Option<Outputs> {
        match name {
            "all" => Some(Outputs::All),
            "last" => Some(Outputs::Last),
            "changes" => Some(Outputs::Changes),
            "none" => Some(Outputs::None),
            _ => None,
        }
    }
}

/// Which scenario a line is about.
#[derive(Clone, Copy)]
pub(crate) struct Named<'v> {
    /// Its name.
    pub id: Option<&'v Value>,
    /// The name of its file; None where there is only one.
    pub file: Option<&'v Value>,
    /// The number of its line, from 1 on; None in a file of its own.
    pub line: Option<u64>,
}

/// What is printed of a life.
#[derive(Clone, Copy)]
pub(crate) struct LifeOptions<'i> {
    /// Which outputs.
    pub outputs: Outputs,
    /// The step of the scenario at which it stopped.
    pub step: Option<u64>,
    /// The image whose digest is printed.
    pub digested: Option<&'i [u8]>,
    /// The number of the image that was written.
    pub image: Option<u64>,
}

// What was counted of a life.
#[derive(Clone, Copy)]
struct Counts {
    trips: u64,
    service: u64,
    emergency: u64,
}

fn is_trip(output: &Output) -> bool {
    matches!(output.mode, Mode::Trip)
}

fn is_service(output: &Output) -> bool {
    matches!(output.brake, Brake::Service)
}

fn is_emergency(output: &Output) -> bool {
    matches!(output.brake, Brake::Emergency)
}

// How often the train was tripped, and how often each brake was commanded after it was not.
fn counts_of(released: &[Released]) -> Counts {
    let mut counts = Counts {
        trips: 0,
        service: 0,
        emergency: 0,
    };
    let mut before = Output::blank();
    for one in released {
        let now = one.output();
        if is_trip(&now) && !is_trip(&before) {
            counts.trips = counts.trips.saturating_add(1);
        }
        if is_service(&now) && !is_service(&before) {
            counts.service = counts.service.saturating_add(1);
        }
        if is_emergency(&now) && !is_emergency(&before) {
            counts.emergency = counts.emergency.saturating_add(1);
        }
        before = now;
    }
    counts
}

// A level as a number, null where none is valid.
fn level_number(level: Option<TrainLevel>) -> &'static str {
    match level {
        None => "null",
        Some(TrainLevel::Level0) => "0",
        Some(TrainLevel::Level1) => "1",
    }
}

// The names of the indications that are displayed, as a list.
fn write_indications<W: Write>(indications: Indications, out: &mut W) -> io::Result<()> {
    out.write_all(b"[")?;
    let mut is_first = true;
    for (is_displayed, name) in named_indications(&indications) {
        if is_displayed {
            let front = if is_first { "\"" } else { ",\"" };
            out.write_all(front.as_bytes())?;
            out.write_all(name.as_bytes())?;
            out.write_all(b"\"")?;
            is_first = false;
        }
    }
    out.write_all(b"]")
}

fn write_output<W: Write>(one: &Released, comma: bool, out: &mut W) -> io::Result<()> {
    let output = one.output();
    let front = [
        Piece::Same(if comma { ",{\"event\":" } else { "{\"event\":" }),
        Piece::Number(one.event()),
        Piece::Same(",\"mode\":\""),
        Piece::Same(mode_name(output.mode)),
        Piece::Same("\",\"level\":"),
        Piece::Same(level_number(output.level)),
        Piece::Same(",\"brake\":\""),
        Piece::Same(brake_name(output.brake)),
        Piece::Same("\",\"limit_m_per_h\":"),
        Piece::Number(u64::from(output.limit.get())),
        Piece::Same(",\"indications\":"),
    ];
    write_pieces(Form::Json, &front, out)?;
    write_indications(output.indications, out)?;
    out.write_all(b"}")
}

fn write_all<W: Write>(released: &[Released], out: &mut W) -> io::Result<()> {
    let mut comma = false;
    for one in released {
        write_output(one, comma, out)?;
        comma = true;
    }
    Ok(())
}

fn write_changes<W: Write>(released: &[Released], out: &mut W) -> io::Result<()> {
    let mut before: Option<Output> = None;
    for one in released {
        let output = one.output();
        let is_new = match &before {
            Some(before) => !are_same(before, &output),
            None => true,
        };
        if is_new {
            write_output(one, before.is_some(), out)?;
        }
        before = Some(output);
    }
    Ok(())
}

fn write_outputs<W: Write>(released: &[Released], outputs: Outputs, out: &mut W) -> io::Result<()> {
    out.write_all(b",\"outputs\":[")?;
    match outputs {
        Outputs::All => write_all(released, out)?,
        Outputs::Changes => write_changes(released, out)?,
        Outputs::Last => {
            if let Some(last) = released.last() {
                write_output(last, false, out)?;
            }
        }
        Outputs::None => {}
    }
    out.write_all(b"]")
}

fn write_named<W: Write>(named: Named<'_>, out: &mut W) -> io::Result<()> {
    match named.id {
        Some(id) => write!(out, "{{\"id\":{id}")?,
        None => out.write_all(b"{\"id\":null")?,
    }
    if let Some(file) = named.file {
        write!(out, ",\"file\":{file}")?;
    }
    write_pieces(
        Form::Json,
        &[Piece::Same(",\"line\":"), known(named.line)],
        out,
    )
}

fn write_status<W: Write>(status: &str, out: &mut W) -> io::Result<()> {
    out.write_all(b"\"status\":\"")?;
    out.write_all(status.as_bytes())?;
    out.write_all(b"\"")
}

fn write_front<W: Write>(named: Named<'_>, status: &str, out: &mut W) -> io::Result<()> {
    write_named(named, out)?;
    out.write_all(b",")?;
    write_status(status, out)
}

fn write_end<W: Write>(error: LiveError, step: Option<u64>, out: &mut W) -> io::Result<()> {
    let (number, name) = of_stop(error);
    write_pieces(
        Form::Json,
        &[
            Piece::Same(",\"step\":"),
            known(step),
            Piece::Same(",\"number\":"),
            Piece::Number(u64::from(number)),
            Piece::Same(",\"name\":\""),
            Piece::Same(name),
            Piece::Same("\""),
        ],
        out,
    )
}

fn write_counts<W: Write>(played: &Played, out: &mut W) -> io::Result<()> {
    let released = played.released.as_slice();
    let counts = counts_of(released);
    write_pieces(
        Form::Json,
        &[
            Piece::Same(",\"events\":"),
            Piece::Number(released.len() as u64),
            Piece::Same(",\"trips\":"),
            Piece::Number(counts.trips),
            Piece::Same(",\"service_brakes\":"),
            Piece::Number(counts.service),
            Piece::Same(",\"emergency_brakes\":"),
            Piece::Number(counts.emergency),
        ],
        out,
    )
}

fn write_digest<W: Write>(image: &[u8], out: &mut W) -> io::Result<()> {
    let mut hasher = Sha256::new();
    hasher.update(image);
    out.write_all(b"\"")?;
    out.write_all(&digits_of(&hasher.finalize()))?;
    out.write_all(b"\"")
}

fn write_image<W: Write>(options: LifeOptions<'_>, out: &mut W) -> io::Result<()> {
    out.write_all(b",\"sha256\":")?;
    match options.digested {
        Some(image) => write_digest(image, out)?,
        None => out.write_all(b"null")?,
    }
    write_pieces(
        Form::Json,
        &[Piece::Same(",\"image\":"), known(options.image)],
        out,
    )
}

// The members of a life that was played.
fn write_life<W: Write>(played: &Played, options: LifeOptions<'_>, out: &mut W) -> io::Result<()> {
    match played.ended {
        Ok(()) => write_status("done", out)?,
        Err(error) => {
            write_status("stopped", out)?;
            write_end(error, options.step, out)?;
        }
    }
    write_counts(played, out)?;
    write_image(options, out)?;
    write_outputs(played.released.as_slice(), options.outputs, out)
}

/// Prints the line of a scenario that was played.
pub(crate) fn write_played<W: Write>(
    named: Named<'_>,
    played: &Played,
    options: LifeOptions<'_>,
    out: &mut W,
) -> io::Result<()> {
    write_named(named, out)?;
    out.write_all(b",")?;
    write_life(played, options, out)?;
    out.write_all(b"}\n")
}

/// Begins the line of a list of scenarios.
pub(crate) fn begin_lives<W: Write>(named: Named<'_>, out: &mut W) -> io::Result<()> {
    write_named(named, out)?;
    out.write_all(b",\"lives\":[")
}

/// Ends the line of a list of scenarios.
pub(crate) fn end_lives<W: Write>(out: &mut W) -> io::Result<()> {
    out.write_all(b"]}\n")
}

fn begin_next<W: Write>(is_later: bool, out: &mut W) -> io::Result<()> {
    out.write_all(if is_later { b",{" } else { b"{" })
}

/// Prints the next life of a list.
pub(crate) fn write_next<W: Write>(
    is_later: bool,
    played: &Played,
    options: LifeOptions<'_>,
    out: &mut W,
) -> io::Result<()> {
    begin_next(is_later, out)?;
    write_life(played, options, out)?;
    out.write_all(b"}")
}

/// Prints that memory was refused for the next life of a list.
pub(crate) fn write_next_unplayed<W: Write>(is_later: bool, out: &mut W) -> io::Result<()> {
    begin_next(is_later, out)?;
    write_status("no_memory", out)?;
    out.write_all(b",\"name\":\"NoMemory\"}")
}

/// Prints the line of a scenario that isn't played for a fault of its line.
pub(crate) fn write_fault<W: Write>(
    named: Named<'_>,
    found: &LineFault,
    out: &mut W,
) -> io::Result<()> {
    let number = found.fault.number();
    let (fault, pointer, wanted) = (found.fault, found.pointer, found.wanted);
    write_front(named, "refused", out)?;
    writeln!(
        out,
        ",\"pointer\":\"{pointer}\",\"fault\":{number},\"name\":\"{fault}\",\"wanted\":\"{wanted}\"}}"
    )
}

/// Prints the line of a scenario that isn't played for another reason, which has this name.
pub(crate) fn write_unplayed<W: Write>(
    named: Named<'_>,
    status: &str,
    name: &str,
    out: &mut W,
) -> io::Result<()> {
    write_front(named, status, out)?;
    writeln!(out, ",\"name\":\"{name}\"}}")
}

/// Prints the line of a scenario that has a fault at this place.
pub(crate) fn write_refused<W: Write>(
    source: Source<'_>,
    place: FaultPlace,
    fault: ScenarioFault,
    out: &mut W,
) -> io::Result<()> {
    write_front(source.named, "refused", out)?;
    write!(out, ",\"pointer\":\"{}", source.pointer)?;
    if let Some(element) = source.element {
        write!(out, "/{element}")?;
    }
    let (number, wanted) = (fault.number(), place.wanted());
    writeln!(
        out,
        "{place}\",\"fault\":{number},\"name\":\"{fault}\",\"wanted\":\"{wanted}\"}}"
    )
}
