//! Writing pieces.
ghost use Rattle.std.specs.Prelude.{flat_map, decimal, OnOk};
ghost use Rattle.std.specs.Fmt.{signed_decimal};
ghost use Rattle.std.specs.Io.KnownBytes.{Appends};
ghost use Rattle.text_output.specs.Pieces.{text_of, texts, part_texts};

use crate::piece::{Form, Piece};
use std::io;
use std::io::Write;

fn write_number<W: Write>(number: u64, out: &mut W) -> io::Result<()>
    ensures { OnOk result (Appends (W.contents out.old) (W.contents out.new) (decimal number)) }
{
    write!(out, "{number}")
}

fn write_signed<W: Write>(number: i64, out: &mut W) -> io::Result<()>
    ensures { OnOk result (Appends (W.contents out.old) (W.contents out.new) (signed_decimal number)) }
{
    write!(out, "{number}")
}

fn write_piece<W: Write>(form: Form, piece: Piece, out: &mut W) -> io::Result<()>
    ensures { OnOk result (Appends (W.contents out.old) (W.contents out.new) (text_of form piece)) }
{
    match piece {
        Piece::Text(people, json) => match form {
            Form::People => out.write_all(people.as_bytes()),
            Form::Json => out.write_all(json.as_bytes()),
        },
        Piece::Same(text) => out.write_all(text.as_bytes()),
        Piece::Number(number) => write_number(number, out),
        Piece::Signed(number) => write_signed(number, out),
        Piece::Nothing => out.write_all(b""),
    }
}

fn write_each<W: Write>(form: Form, pieces: &[Piece], out: &mut W) -> io::Result<()>
    ensures { OnOk result (Appends (W.contents out.old) (W.contents out.new) (flat_map (text_of form) pieces.now)) }
{
    for piece in pieces {
        write_piece(form, *piece, out)?;
    }
    Ok(())
}

/// Writes pieces, one after another. The error is that of a write.
pub fn write_pieces<W: Write>(form: Form, pieces: &[Piece], out: &mut W) -> io::Result<()>
    ensures { OnOk result (Appends (W.contents out.old) (W.contents out.new) (texts form pieces.now)) }
{
    write_each(form, pieces, out)
}

fn write_each_part<W: Write>(form: Form, parts: &[&[Piece]], out: &mut W) -> io::Result<()>
    ensures { OnOk result (Appends (W.contents out.old) (W.contents out.new) (flat_map (λ part. texts form part.now) parts.now)) }
{
    for part in parts {
        write_pieces(form, part, out)?;
    }
    Ok(())
}

/// Writes parts of a text, each of some pieces, one after another. The error is that of a write.
pub fn write_parts<W: Write>(form: Form, parts: &[&[Piece]], out: &mut W) -> io::Result<()>
    ensures { OnOk result (Appends (W.contents out.old) (W.contents out.new) (part_texts form parts.now)) }
{
    write_each_part(form, parts, out)
}
