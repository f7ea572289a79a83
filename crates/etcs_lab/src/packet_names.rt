//! The command `packets`.

use crate::status::{Status, no_memory, reported};
use crate::telegrams::bytes_of;
use packet_uses::{
    Fate, ReportedPacket, name_pieces, never_used_packets, number_pieces, place_pieces, why_piece,
};
use packets::PacketFault;
use std::alloc::Global;
use std::io;
use std::io::Write;
use text_output::{Form, Piece, write_parts, write_pieces};
use track_packets::{
    Field, FieldFault, Fields, FieldsError, ListingEnd, PacketPlace, Variable, fields_of,
    packets_in_order,
};

// Why the fields of a packet aren't reported.
#[derive(Clone, Copy)]
struct FaultReport {
    says: &'static str,
    keyword: &'static str,
    variable: Option<Variable>,
    bit: Option<u64>,
}

// The fields of a packet, or why they aren't reported.
#[derive(Drop)]
enum Body {
    Fields(Fields),
    Fault(FaultReport),
}

// What is reported of a packet.
#[derive(Drop)]
struct PacketReport {
    place: PacketPlace,
    why: Fate,
    body: Body,
}

// Why no mode uses the packet that begins here, in any direction.
fn why_never(never: &[ReportedPacket], start: u32) -> Fate {
    let found = never.iter().find(|one| one.start == u64::from(start));
    found.map_or(Fate::Used, |one| one.fate)
}

fn why_reported(form: Form, why: Fate) -> Piece {
    match (form, why) {
        (Form::Json, _) => why_piece(why),
        (_, Fate::NotKnown) => Piece::Same(", not used: the kernel doesn't know it"),
        (_, Fate::Infill) => Piece::Same(", not used: it is a packet 136, or comes after one"),
        (_, Fate::Refused) => Piece::Same(", not used: the telegram is refused"),
        _ => Piece::Nothing,
    }
}

fn field_pieces(later: bool, field: &Field) -> [Piece; 5] {
    let json = if later { ",[\"" } else { "[\"" };
    [
        Piece::Text(" ", json),
        Piece::Same(field.variable.text()),
        Piece::Text("=", "\","),
        Piece::Number(field.number),
        Piece::Text("", "]"),
    ]
}

fn rest_pieces(rest: u32) -> [Piece; 3] {
    match rest {
        0 => [
            Piece::Text("\n", "],\"rest_bits\":0,\"fault\":null}"),
            Piece::Nothing,
            Piece::Nothing,
        ],
        _ => [
            Piece::Text(" and ", "],\"rest_bits\":"),
            Piece::Number(u64::from(rest)),
            Piece::Text(" bits\n", ",\"fault\":null}"),
        ],
    }
}

fn field_fault(fault: FieldFault) -> FaultReport {
    match fault {
        FieldFault::CutOff(place) => FaultReport {
            says: "a field goes beyond its last bit",
            keyword: "cut_off",
            variable: Some(place.variable),
            bit: Some(u64::from(place.start)),
        },
        FieldFault::TooMany(place) => FaultReport {
            says: "a counter announces too many elements",
            keyword: "too_many",
            variable: Some(place.variable),
            bit: Some(u64::from(place.start)),
        },
        FieldFault::TooLong(start) => FaultReport {
            says: "bits are left after its last field",
            keyword: "too_long",
            variable: None,
            bit: Some(u64::from(start)),
        },
    }
}

fn without_place(says: &'static str, keyword: &'static str) -> FaultReport {
    FaultReport {
        says,
        keyword,
        variable: None,
        bit: None,
    }
}

// Of a packet that the kernel knows.
fn refusal(fault: PacketFault) -> FaultReport {
    match fault {
        PacketFault::Truncated => without_place("the kernel refuses it, Truncated", "Truncated"),
        PacketFault::WrongLength => {
            without_place("the kernel refuses it, WrongLength", "WrongLength")
        }
        PacketFault::Spare => without_place("the kernel refuses it, Spare", "Spare"),
        PacketFault::OutOfRange => {
            without_place("the kernel refuses it, OutOfRange", "OutOfRange")
        }
    }
}

fn fault_pieces(fault: FaultReport) -> [Piece; 8] {
    let (quote, name, end) = match fault.variable {
        Some(variable) => (
            Piece::Text(", ", "\",\"variable\":\""),
            Piece::Same(variable.text()),
            Piece::Text("", "\",\"bit\":"),
        ),
        None => (
            Piece::Text("", "\",\"variable\":null,\"bit\":"),
            Piece::Nothing,
            Piece::Nothing,
        ),
    };
    let (at, bit) = match fault.bit {
        Some(bit) => (Piece::Text(" at its bit ", ""), Piece::Number(bit)),
        None => (Piece::Text("", "null"), Piece::Nothing),
    };
    [
        Piece::Text(
            "  its fields can't be decoded: ",
            ",\"fields\":null,\"rest_bits\":null,\"fault\":{\"name\":\"",
        ),
        Piece::Text(fault.says, fault.keyword),
        quote,
        name,
        end,
        at,
        bit,
        Piece::Text("\n", "}}"),
    ]
}

fn write_fields<W: Write>(form: Form, fields: &Fields, out: &mut W) -> io::Result<()> {
    write_pieces(form, &[Piece::Text(" ", ",\"fields\":[")], out)?;
    let mut later = false;
    for field in &fields.fields {
        write_pieces(form, &field_pieces(later, field), out)?;
        later = true;
    }
    write_pieces(form, &rest_pieces(fields.rest), out)
}

// The fields of a packet, or why they can't be reported; None where memory is refused.
fn body_of(alloc: Global, bytes: &[u8], place: PacketPlace) -> Option<Body> {
    match fields_of(alloc, bytes, place) {
        Ok(fields) => Some(Body::Fields(fields)),
        Err(FieldsError::NoMemory) => None,
        Err(FieldsError::NotThere) => {
            Some(Body::Fault(without_place("it isn't there", "not_there")))
        }
        Err(FieldsError::Refused(fault)) => Some(Body::Fault(refusal(fault))),
        Err(FieldsError::Fault(fault)) => Some(Body::Fault(field_fault(fault))),
    }
}

// All that is reported of the packets of a telegram, so that no memory is asked for once it is written; None where it is refused.
fn description_of(
    alloc: Global,
    bytes: &[u8],
    places: &[PacketPlace],
) -> Option<Vec<PacketReport>> {
    let never = never_used_packets(bytes);
    let mut reported = Vec::new(alloc);
    for place in places {
        let why = why_never(never.as_slice(), place.start);
        let body = body_of(alloc, bytes, *place)?;
        let one = PacketReport {
            place: *place,
            why,
            body,
        };
        reported.push(one).ok()?;
    }
    Some(reported)
}

fn write_packet<W: Write>(
    form: Form,
    packet: &PacketReport,
    later: bool,
    out: &mut W,
) -> io::Result<()> {
    let number = number_pieces("packet ", later, packet.place.number);
    let name = name_pieces(packet.place.number);
    let place = place_pieces(
        u64::from(packet.place.start),
        u64::from(packet.place.length),
    );
    let why = [why_reported(form, packet.why), Piece::Text("\n", "")];
    write_parts(form, &[&number, &name, &place, &why], out)?;
    match &packet.body {
        Body::Fields(fields) => write_fields(form, fields, out),
        Body::Fault(fault) => write_pieces(form, &fault_pieces(*fault), out),
    }
}

fn end_pieces(end: ListingEnd) -> [Piece; 5] {
    let (says, keyword, at) = match end {
        ListingEnd::EndMark(at) => ("end mark at ", "end_mark", at),
        ListingEnd::NoEnd(at) => ("no end mark at ", "no_end", at),
        ListingEnd::CutOff(at) => ("beyond the last bit goes what is at ", "cut_off", at),
        ListingEnd::WrongLength(at) => ("an L_PACKET below 23 has what is at ", "wrong_length", at),
        ListingEnd::TooMany(at) => ("no further packet is listed from ", "too_many", at),
    };
    [
        Piece::Text("", "],\"end\":\""),
        Piece::Text(says, keyword),
        Piece::Text("", "\",\"end_bit\":"),
        Piece::Number(u64::from(at)),
        Piece::Text("\n", "}\n"),
    ]
}

// Whether an end mark ends a list whose fields are all reported.
fn is_whole(packets: &[PacketReport], end: ListingEnd) -> bool {
    let are_reported = packets
        .iter()
        .all(|one| matches!(one.body, Body::Fields(_)));
    are_reported && matches!(end, ListingEnd::EndMark(_))
}

// Writes the packets of a telegram, and what ends them.
fn write_all<W: Write>(
    form: Form,
    packets: &[PacketReport],
    end: ListingEnd,
    out: &mut W,
) -> io::Result<()> {
    write_pieces(form, &[Piece::Text("", "{\"packets\":[")], out)?;
    let mut later = false;
    for packet in packets {
        write_packet(form, packet, later, out)?;
        later = true;
    }
    write_pieces(form, &end_pieces(end), out)
}

/// Reports the packets of a telegram by name, each with its fields and why no mode uses it, in lines or as JSON, and answers
/// the status.
pub(crate) fn packets_reported<R: AllocGlobal + Eprint, W: Write>(
    rt: &R,
    digits: &str,
    form: Form,
    out: &mut W,
) -> Result<Status, Status> {
    let bytes = bytes_of(rt, digits)?;
    let listing = packets_in_order(bytes.as_slice());
    let Some(packets) = description_of(rt.alloc(), bytes.as_slice(), listing.packets.as_slice())
    else {
        return Err(no_memory(rt, "HEX"));
    };
    let packets = packets.as_slice();
    reported(rt, "HEX", write_all(form, packets, listing.end, out))?;
    if is_whole(packets, listing.end) {
        return Ok(Status::Whole);
    }
    Ok(Status::Damaged)
}
