//! Refusals, as the program reports them. The errors are those of the writes.
ghost use Rattle.std.specs.Prelude.{◌≡◌, IfOk, OnOk};
ghost use Rattle.std.specs.Io.KnownBytes.{Appends};
ghost use Rattle.sessions.specs.Reasons.{format_reason, format_status, listing_reason, listing_status, fault_reason, refusal_of};

use crate::reasons::{of_fault, of_format, of_listing, write_reason};
use journal::FormatError;
use reader::ListingError;
use simulator::ScenarioFault;
use std::io;
use std::io::Write;
use text_output::Status;

/// Reports why no image was made.
pub(crate) fn refuse_format<W: Write>(error: FormatError, out: &mut W) -> io::Result<Status>
    ensures status { IfOk result (λ status. status ≡ format_status error) }
    ensures line { OnOk result (Appends (W.contents out.old) (W.contents out.new) (refusal_of (format_reason error))) }
{
    write_reason("refused", of_format(error), out)?;
    Ok(match error {
        FormatError::DeviceFault => Status::Device,
        FormatError::BadSlots | FormatError::WrongSize => Status::Refused,
    })
}

/// Reports why a journal was not listed to its end.
pub(crate) fn refuse_listing<W: Write>(error: ListingError, out: &mut W) -> io::Result<Status>
    ensures status { IfOk result (λ status. status ≡ listing_status error) }
    ensures line { OnOk result (Appends (W.contents out.old) (W.contents out.new) (refusal_of (listing_reason error))) }
{
    write_reason("refused", of_listing(error), out)?;
    Ok(match error {
        ListingError::DeviceFault => Status::Device,
        _ => Status::Refused,
    })
}

/// Reports the fault of a scenario.
pub(crate) fn refuse_scenario<W: Write>(fault: ScenarioFault, out: &mut W) -> io::Result<Status>
    ensures status { IfOk result (λ status. status ≡ Status.Refused) }
    ensures line { OnOk result (Appends (W.contents out.old) (W.contents out.new) (refusal_of (fault_reason fault))) }
{
    write_reason("refused", of_fault(fault), out)?;
    Ok(Status::Refused)
}
