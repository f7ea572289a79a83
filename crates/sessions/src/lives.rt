//! A life, as the program writes it.
ghost use Rattle.std.specs.Prelude.{◌≡◌, ℕ, List, IsTrue, IfOk, OnOk};
ghost use Rattle.std.specs.Io.KnownBytes.{Appends};
ghost use Rattle.disk.specs.State.{Counted};
ghost use Rattle.events.specs.declared.input.Event.{Event};
ghost use Rattle.unit_start.specs.Lives.{IsReady};
ghost use Rattle.sessions.specs.Lines.{lines_of};
ghost use Rattle.sessions.specs.Reasons.{status_of};
ghost use Rattle.sessions.specs.Sessions.{is_device, report_of, Session};

use crate::stops::describe_end;
use disk::Disk;
use events::Step;
use mode_table::Cold;
use onboard::Released;
use std::alloc::Global;
use std::io;
use std::io::Write;
use text_output::{OutputLines, Status};
use whole_lives::{LiveError, live};

fn write_lines<W: Write>(pairs: &[Released], out: &mut W) -> io::Result<()>
    ensures { OnOk result (Appends (W.contents out.old) (W.contents out.new) (lines_of pairs.now)) }
{
    let mut lines = OutputLines::new();
    for pair in pairs {
        lines.write(pair.event(), &pair.output(), out)?;
    }
    Ok(())
}

fn describe_life<W: Write>(
    released: &[Released],
    ended: Result<(), LiveError>,
    out: &mut W,
) -> io::Result<Status>
    ensures status { IfOk result (λ status. status ≡ status_of ended) }
    ensures lines { OnOk result (Appends (W.contents out.old) (W.contents out.new) (report_of released.now ended)) }
{
    write_lines(released, out)?;
    describe_end(ended, out)
}

/// One life on a disk, and after it a line for each output that it released, and a last one where it stopped. It hands
/// the disk back, and answers the status that the program ends with; the error is that of a write.
pub fn run_life<D: Disk, W: Write>(
    alloc: Global,
    disk: D,
    cold: Cold,
    steps: &[Step],
    out: &mut W,
) -> (D, io::Result<Status>)
    // The status is that of a device exactly where the device failed.
    ensures counted { IfOk result.1 (λ status. Counted (is_device status) (D.state disk) (D.state result.0)) }

    ensures session { (whole_from : ℕ) (durable accepted : List Event) → IsTrue (D.state disk).honest →
        IsReady whole_from durable accepted (D.state disk) →
        Session whole_from durable accepted cold steps.now (D.state disk) (D.state result.0) (W.contents out.old)
        (W.contents out.new) result.1 }
{
    let mut released = Vec::new(alloc);
    let (disk, ended) = live(alloc, disk, cold, steps, &mut released);
    let status = describe_life(released.as_slice(), ended, out);
    (disk, status)
}
