//! The fields of a packet that the kernel uses, reported by `packets`, which has its layout.
ghost use Rattle.track_packets.specs.Reading.{DescribesKernel};

use crate::reading::{Field, Fields, FieldsError};
use crate::variable::Variable;
use bits::{BitReader, Run, VariableName};
use packets::{FieldSink, hand_packet, read_packet};
use std::alloc::Global;

/// Memory was refused.
#[derive(Drop)]
struct Refused;

/// Fields as they are handed on, and how many bits they have.
#[derive(Drop)]
struct FieldTaker {
    fields: Vec<Field>,
    at: u64,
}

/// It keeps each field with its place; bits that are skipped have none.
impl FieldSink for FieldTaker {
    ghost use Rattle.track_packets.specs.Kernel.{Shows, with_listed};

    ghost Seen = { Shows };

    ghost seen = { λ t. record { fields = t.fields.items; at = t.at } };

    ghost took = { with_listed };

    ghost held = { λ t. t.at };

    ghost most = { 17179869184 };

    type Error = Refused;

    fn field(&mut self, name: VariableName, width: u32, number: u64) -> Result<(), Refused> {
        let field = Field {
            variable: Variable::Shared(name),
            start: self.at,
            width,
            number,
        };
        if self.fields.push(field).is_err() {
            return Err(Refused);
        }
        self.at += u64::from(width);
        Ok(())
    }

    fn run(&mut self, bits: &Run<'_>) -> Result<(), Refused> {
        self.at += u64::from(bits.len());
        Ok(())
    }
}

/// The fields of the packet that the bits of a reader begin with, by its layout in `packets`.
pub(crate) fn kernel_fields_of(alloc: Global, reader: &BitReader<'_>) -> Result<Fields, FieldsError>
    ensures { DescribesKernel (λ f. (f.fields.items, f.rest)) result reader.now }
{
    let mut bits = reader.fork();
    let packet = match read_packet(&mut bits) {
        Ok(packet) => packet,
        Err(fault) => return Err(FieldsError::Refused(fault)),
    };
    let fields = Vec::new(alloc);
    let mut taker = FieldTaker { fields, at: 0 };
    let length = packet.length();
    match hand_packet(&packet, length, &mut taker) {
        Ok(()) => Ok(Fields {
            fields: taker.fields,
            rest: 0,
        }),
        Err(_) => Err(FieldsError::NoMemory),
    }
}
