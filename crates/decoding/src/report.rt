//! A telegram in lines: its header, its packets, and its number of bits.
ghost use Rattle.std.specs.Prelude.{◌≤◌, drop, flat_map, OnOk};
ghost use Rattle.std.specs.Io.KnownBytes.{Appends};
ghost use Rattle.packets.specs.Packets.{length_of};
ghost use Rattle.telegram.specs.Sequences.{length_of_all};
ghost use Rattle.decoding.specs.Lines.{field_text, header_line, body_text, packet_line, end_line, telegram_lines};

use crate::fields::{FieldList, FieldValue, fields_into, header_into};
use packets::Packet;
use std::io;
use std::io::Write;
use telegram::{Header, Telegram};

fn write_field<W: Write>(field: FieldValue, out: &mut W) -> io::Result<()>
    ensures { OnOk result (Appends (W.contents out.old) (W.contents out.new) (field_text field)) }
{
    let name = field.name.text();
    let number = field.number;
    write!(out, " {name}={number}")
}

fn write_fields<W: Write>(fields: &[FieldValue], out: &mut W) -> io::Result<()>
    ensures { OnOk result (Appends (W.contents out.old) (W.contents out.new) (flat_map field_text fields.now)) }
{
    for field in fields {
        write_field(*field, out)?;
    }
    Ok(())
}

fn write_header<W: Write>(header: &Header, list: &mut FieldList, out: &mut W) -> io::Result<()>
    ensures { OnOk result (Appends (W.contents out.old) (W.contents out.new) (header_line header.now)) }
{
    header_into(header, list);
    out.write_all(b"telegram")?;
    write_fields(list.fields.as_slice(), out)?;
    out.write_all(b"\n")
}

// The fields after the first one, which is NID_PACKET.
fn write_others<W: Write>(fields: &[FieldValue], out: &mut W) -> io::Result<()>
    ensures { OnOk result (Appends (W.contents out.old) (W.contents out.new) (flat_map field_text (drop 1 fields.now))) }
{
    match fields.split_first() {
        Some((_, others)) => write_fields(others, out),
        None => Ok(()),
    }
}

fn write_body<W: Write>(packet: &Packet<'_>, out: &mut W) -> io::Result<()>
    ensures { OnOk result (Appends (W.contents out.old) (W.contents out.new) (body_text packet.now)) }
{
    match packet {
        Packet::Other(_) => out.write_all(b" skipped"),
        _ => Ok(()),
    }
}

fn write_packet<W: Write>(packet: &Packet<'_>, list: &mut FieldList, out: &mut W) -> io::Result<()>
    requires { length_of packet.now ≤ 832 }
    ensures { OnOk result (Appends (W.contents out.old) (W.contents out.new) (packet_line packet.now)) }
{
    let number = packet.number().get();
    fields_into(packet, list);
    write!(out, "packet {number}")?;
    write_others(list.fields.as_slice(), out)?;
    write_body(packet, out)?;
    out.write_all(b"\n")
}

fn write_packets<W: Write>(
    packets: &[Packet<'_>],
    list: &mut FieldList,
    out: &mut W,
) -> io::Result<()>
    requires { length_of_all packets.now ≤ 832 }
    ensures { OnOk result (Appends (W.contents out.old) (W.contents out.new) (flat_map packet_line packets.now)) }
{
    match packets.split_first() {
        Some((packet, others)) => {
            write_packet(packet, list, out)?;
            write_packets(others, list, out)
        }
        None => Ok(()),
    }
}

fn write_end<W: Write>(telegram: &Telegram<'_>, out: &mut W) -> io::Result<()>
    ensures { OnOk result (Appends (W.contents out.old) (W.contents out.new) (end_line telegram.now)) }
{
    let bits = telegram.bits();
    writeln!(out, "end {bits}")
}

/// Writes a telegram: a line with the fields of its header, one for each packet, and `end` with its number of bits.
/// Fields are named as in SUBSET-026, 7.5.1, with their numbers as they were sent. The error is that of a write; then
/// some of the text may be written.
pub fn print_telegram<W: Write>(telegram: &Telegram<'_>, out: &mut W) -> io::Result<()>
    requires { length_of_all telegram.now.packets.items ≤ 832 }
    ensures { OnOk result (Appends (W.contents out.old) (W.contents out.new) (telegram_lines telegram.now)) }
{
    let mut list = FieldList::new();
    write_header(&telegram.header, &mut list, out)?;
    write_packets(telegram.packets.as_slice(), &mut list, out)?;
    write_end(telegram, out)
}
