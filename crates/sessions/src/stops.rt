//! Why a life stopped, as the program says it.
ghost use Rattle.std.specs.Prelude.{◌≡◌, IfOk, OnOk};
ghost use Rattle.std.specs.Io.KnownBytes.{Appends};
ghost use Rattle.sessions.specs.Reasons.{stop_status, status_of, ending_of};

use crate::reasons::{of_stop, write_reason};
use onboard::{FlushError, OpenError};
use std::io;
use std::io::Write;
use text_output::Status;
use whole_lives::LiveError;

fn status_of_stop(error: LiveError) -> Status
    ensures { result ≡ stop_status error }
{
    match error {
        LiveError::Open(OpenError::DeviceFault) | LiveError::Flush(_, FlushError::DeviceFault) => {
            Status::Device
        }
        _ => Status::Refused,
    }
}

/// Writes why a life stopped, if it did, and answers the status that the program ends with. The error is that of the
/// write.
pub(crate) fn describe_end<W: Write>(
    ended: Result<(), LiveError>,
    out: &mut W,
) -> io::Result<Status>
    ensures status { IfOk result (λ status. status ≡ status_of ended) }
    ensures line { OnOk result (Appends (W.contents out.old) (W.contents out.new) (ending_of ended)) }
{
    let Err(error) = ended else {
        return Ok(Status::Done);
    };
    write_reason("stopped", of_stop(error), out)?;
    Ok(status_of_stop(error))
}
