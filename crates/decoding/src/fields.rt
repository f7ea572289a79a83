//! The fields of a header and of a packet, taken into a list.
ghost use Rattle.std.specs.Prelude.{◌≡◌, ◌≤◌, []};
ghost use Rattle.packets.specs.Packets.{length_of};
ghost use Rattle.decoding.specs.Fields.{header_fields, packet_fields};

use arrayvec::ArrayVec;
use bits::{Run, VariableName};
use packets::{FieldSink, Packet, hand_packet};
use std::convert::Infallible;
use telegram::Header;

/// A field: the name of its variable, the number of its bits, and the number that they spell.
#[derive(Clone, Copy)]
pub struct FieldValue {
    pub name: VariableName,
    pub width: u32,
    pub number: u64,
}

impl Default for FieldValue {
    fn default() -> FieldValue {
        FieldValue {
            name: VariableName::NidPacket,
            width: 0,
            number: 0,
        }
    }
}

/// Fields, one after another; no telegram has more than its 832 bits.
#[derive(Drop)]
pub struct FieldList {
    pub fields: ArrayVec<FieldValue, 832>,
}

/// It holds each field that has bits, and none that is skipped.
impl FieldSink for FieldList {
    ghost use Rattle.std.specs.Prelude.{List, length};
    ghost use Rattle.decoding.specs.Fields.{with_field};
    ghost use Rattle.decoding.specs.declared.fields.FieldValue.{FieldValue as a_field};

    ghost Seen = { List a_field };

    ghost seen = { λ list. list.fields.items };

    ghost took = { with_field };

    ghost held = { λ list. length list.fields.items };

    ghost most = { 832 };

    type Error = Infallible;

    fn field(&mut self, name: VariableName, width: u32, number: u64) -> Result<(), Infallible> {
        if width != 0 {
            self.fields.push(FieldValue {
                name,
                width,
                number,
            });
        }
        Ok(())
    }

    fn run(&mut self, _bits: &Run<'_>) -> Result<(), Infallible> {
        Ok(())
    }
}

impl FieldList {
    /// No field.
    pub fn new() -> FieldList
        ensures { result.fields.items ≡ [] }
    {
        FieldList {
            fields: ArrayVec::new(),
        }
    }
}

/// Puts the fields of a header in place of those in a list.
pub fn header_into(header: &Header, list: &mut FieldList)
    ensures { list.new.fields.items ≡ header_fields header.now }
{
    list.fields.clear();
    match header.fields(list) {
        Ok(()) => {}
    }
}

/// Puts the fields of a packet in place of those in a list, NID_PACKET first.
pub fn fields_into(packet: &Packet<'_>, list: &mut FieldList)
    requires { length_of packet.now ≤ 832 }
    ensures { list.new.fields.items ≡ packet_fields packet.now }
{
    list.fields.clear();
    match hand_packet(packet, packet.length(), list) {
        Ok(()) => {}
    }
}
