//! A telegram as an object: header and packets by the variables of SUBSET-026, 7.5.1, in the order of their layouts; or why
//! bytes carry none (`docs/reference/json.md`).

use crate::hex_text::HexText;
use bits::{BitWriter, Run};
use decoding::{FieldList, FieldValue, fields_into, header_into};
use packets::{Packet, TELEGRAM_BYTES};
use serde::{Serialize, Serializer};
use std::alloc::{AllocError, Global};
use telegram::{Telegram, TelegramFault, decode_into};

/// A packet of a telegram.
#[derive(Drop, Serialize)]
pub struct PacketObject {
    /// NID_PACKET.
    pub packet: u8,
    /// Its variables, in the order of its layout.
    #[serde(serialize_with = "write_pairs")]
    pub fields: Vec<FieldValue>,
    /// The bits of a body that is skipped; None where it has a layout.
    #[serde(skip_serializing_if = "Option::is_none")]
    pub skipped_bits: Option<u32>,
    /// That body, padded with zero bits to whole bytes.
    #[serde(serialize_with = "write_body", skip_serializing_if = "Option::is_none")]
    pub body: Option<Vec<u8>>,
}

/// A telegram.
#[derive(Drop, Serialize)]
pub struct TelegramObject {
    /// The variables of its header.
    #[serde(serialize_with = "write_members")]
    pub header: Vec<FieldValue>,
    /// Its packets before the end mark, in their order.
    pub packets: Vec<PacketObject>,
    /// How many bits it has, up to and with the end mark.
    pub bits: u64,
}

/// A fault of bytes that carry no telegram.
#[derive(Drop, Serialize)]
pub struct FaultObject {
    /// Its number.
    pub number: u8,
    /// The fault, printed by its name.
    #[serde(serialize_with = "write_fault")]
    pub name: TelegramFault,
}

/// Bytes that carry no telegram.
#[derive(Drop, Serialize)]
pub struct RefusalObject {
    /// Their first fault.
    pub refused: FaultObject,
}

/// What bytes come to.
#[derive(Drop, Serialize)]
#[serde(untagged)]
pub enum Decoded {
    /// They carry this telegram.
    Telegram(TelegramObject),
    /// They carry none.
    Refused(RefusalObject),
}

// ---- as JSON

// The variables by name.
fn write_members<S: Serializer>(fields: &Vec<FieldValue>, out: &mut S) -> Result<(), S::Error> {
    out.begin_map(None)?;
    for field in fields.as_slice() {
        out.key(field.name.text())?;
        out.u64(field.number)?;
    }
    out.end_map()
}

// The variables as pairs of a name and a number.
fn write_pairs<S: Serializer>(fields: &Vec<FieldValue>, out: &mut S) -> Result<(), S::Error> {
    out.begin_seq(None)?;
    for field in fields.as_slice() {
        out.begin_seq(None)?;
        out.str(field.name.text())?;
        out.u64(field.number)?;
        out.end_seq()?;
    }
    out.end_seq()
}

fn write_body<S: Serializer>(body: &Option<Vec<u8>>, out: &mut S) -> Result<(), S::Error> {
    match body {
        Some(bytes) => out.collect_str(&HexText::upper(bytes.as_slice())),
        None => out.unit(),
    }
}

fn write_fault<S: Serializer>(fault: &TelegramFault, out: &mut S) -> Result<(), S::Error> {
    out.str(fault.name())
}

// ---- the values

// The bits of a telegram, and so of a packet and of a body, at most.
const MOST_BITS: u64 = 832;

// The bytes of a body, padded with zero bits.
fn body_bytes(alloc: Global, run: &Run<'_>) -> Result<Vec<u8>, AllocError> {
    let mut writer: BitWriter<TELEGRAM_BYTES> = BitWriter::new();
    if writer.has_space(u64::from(run.len())) {
        writer.write_run(run);
    }
    let mut bytes = [0u8; TELEGRAM_BYTES];
    let count = writer.copy_to(&mut bytes);
    bytes[..count.min(TELEGRAM_BYTES)].to_vec(alloc)
}

// Its fields pass through the list.
fn packet_object(
    alloc: Global,
    packet: &Packet<'_>,
    list: &mut FieldList,
) -> Result<PacketObject, AllocError> {
    let fields = if packet.length() <= MOST_BITS {
        fields_into(packet, list);
        list.fields.as_slice().to_vec(alloc)?
    } else {
        Vec::new(alloc)
    };
    let (skipped_bits, body) = match packet {
        Packet::Other(other) => (
            Some(other.body.len()),
            Some(body_bytes(alloc, &other.body)?),
        ),
        _ => (None, None),
    };
    Ok(PacketObject {
        packet: packet.number().get(),
        fields,
        skipped_bits,
        body,
    })
}

fn telegram_object(alloc: Global, telegram: &Telegram<'_>) -> Result<TelegramObject, AllocError> {
    let mut list = FieldList::new();
    header_into(&telegram.header, &mut list);
    let header = list.fields.as_slice().to_vec(alloc)?;
    let mut packets = Vec::new(alloc);
    for packet in telegram.packets.as_slice() {
        packets.push(packet_object(alloc, packet, &mut list)?)?;
    }
    Ok(TelegramObject {
        header,
        packets,
        bits: telegram.bits(),
    })
}

/// The telegram that bytes carry, or why they carry none. The error is that of memory.
pub fn decoded_of(alloc: Global, bytes: &[u8]) -> Result<Decoded, AllocError> {
    let mut telegram = Telegram::new();
    match decode_into(bytes, &mut telegram) {
        Ok(()) => Ok(Decoded::Telegram(telegram_object(alloc, &telegram)?)),
        Err(fault) => Ok(Decoded::Refused(RefusalObject {
            refused: FaultObject {
                number: fault.number(),
                name: fault,
            },
        })),
    }
}
