//! The command `decode`.

use crate::status::{Status, fail, no_memory, unwritten};
use decoding::decode_text;
use hex::FromHexError;
use image_lines::{Decoded, JsonLines, LineSink, decoded_of};
use lives::LateError;
use std::alloc::Global;
use std::io::Write;

/// The bytes of digits; else says why they are none.
pub(crate) fn bytes_of<R: AllocGlobal + Eprint>(rt: &R, digits: &str) -> Result<Vec<u8>, Status> {
    hex::decode(rt.alloc(), digits).map_err(|error| match error {
        FromHexError::OutOfMemory => no_memory(rt, "HEX"),
        _ => fail(
            rt,
            "is not hexadecimal (two digits for each byte)",
            "HEX",
            Status::Refused,
        ),
    })
}

// Prints what bytes come to as a line of JSON; whether they carry a telegram.
fn print_decoded<W: Write>(alloc: Global, bytes: &[u8], out: &mut W) -> Result<bool, LateError> {
    let Ok(decoded) = decoded_of(alloc, bytes) else {
        return Err(LateError::NoMemory);
    };
    JsonLines::new(alloc, out).take(&decoded)?;
    Ok(matches!(decoded, Decoded::Telegram(_)))
}

// Prints what digits carry as a line of JSON; whether they carry a telegram.
fn print_object<W: Write>(alloc: Global, digits: &str, out: &mut W) -> Result<bool, LateError> {
    let printed = match hex::decode(alloc, digits) {
        Ok(bytes) => print_decoded(alloc, bytes.as_slice(), out),
        Err(FromHexError::OutOfMemory) => Err(LateError::NoMemory),
        Err(_) => {
            out.write_all(b"{\"refused\":{\"name\":\"hex\"}}\n")?;
            Ok(false)
        }
    };
    if let Err(LateError::NoMemory) = printed {
        out.write_all(b"{\"refused\":{\"name\":\"memory\"}}\n")?;
        return Ok(false);
    }
    printed
}

// Prints what digits carry in lines, as `etcs decode`; whether they carry a telegram.
fn print_lines<W: Write>(alloc: Global, digits: &str, out: &mut W) -> Result<bool, LateError> {
    let status = decode_text(alloc, digits, out)?;
    Ok(status as u8 == 0)
}

/// Writes what digits carry, in lines as `etcs decode` or as JSON, and answers the status.
pub(crate) fn decode_reported<R: AllocGlobal + Eprint, W: Write>(
    rt: &R,
    digits: &str,
    json: bool,
    out: &mut W,
) -> Result<Status, Status> {
    let reported = if json {
        print_object(rt.alloc(), digits, out)
    } else {
        print_lines(rt.alloc(), digits, out)
    };
    match reported {
        Ok(true) => Ok(Status::Whole),
        Ok(false) => Ok(Status::Refused),
        Err(_) => Err(unwritten(rt, "HEX")),
    }
}
