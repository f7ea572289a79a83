//! From hexadecimal digits to the lines of a telegram, or to why they carry none.
ghost use Rattle.std.specs.Prelude.{◌≡◌, ◌%◌, length, codes, IfOk, OnOk};
ghost use Rattle.std.specs.Io.KnownBytes.{Appends};
ghost use Rattle.decoding.specs.Lines.{refusal_line};
ghost use Rattle.decoding.specs.Showing.{IsAnswered, IsPrinted};

use crate::report::print_telegram;
use hex::FromHexError;
use std::alloc::Global;
use std::io;
use std::io::Write;
use telegram::{Telegram, TelegramFault, decode_into};
use text_output::{Status, describe};

fn refuse<W: Write>(fault: TelegramFault, out: &mut W) -> io::Result<()>
    ensures { OnOk result (Appends (W.contents out.old) (W.contents out.new) (refusal_line fault)) }
{
    let number = fault.number();
    let name = fault.name();
    writeln!(out, "refused {number} {name}")
}

fn show<W: Write>(bytes: &[u8], out: &mut W) -> io::Result<Status>
    ensures { IfOk result (IsAnswered bytes.now (W.contents out.old) (W.contents out.new)) }
{
    let mut telegram = Telegram::new();
    match decode_into(bytes, &mut telegram) {
        Ok(()) => {
            print_telegram(&telegram, out)?;
            Ok(Status::Done)
        }
        Err(fault) => {
            refuse(fault, out)?;
            Ok(Status::Refused)
        }
    }
}

/// Writes the telegram that hex digits carry, two a byte, and answers Done. Else it writes why they carry none, and
/// answers Refused: `refused hex`, `refused memory`, or number and name of the fault (`docs/reference/refusals.md`).
/// Done exactly where they carry one, unless memory is refused, which is never asked for an odd number of digits. The
/// error is that of a write.
pub fn decode_text<W: Write>(alloc: Global, text: &str, out: &mut W) -> io::Result<Status>
    ensures text_printed { IfOk result (IsPrinted text.now (W.contents out.old) (W.contents out.new)) }
    ensures quiet { length text.now % 2 ≡ 1 → OnOk result (Appends (W.contents out.old) (W.contents out.new) (codes "refused hex\n")) }
{
    match hex::decode(alloc, text) {
        Ok(bytes) => show(bytes.as_slice(), out),
        Err(FromHexError::OutOfMemory) => describe(out, "refused memory", Status::Refused),
        Err(_) => describe(out, "refused hex", Status::Refused),
    }
}
