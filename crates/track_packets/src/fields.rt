//! The fields of a whole packet where it stands in its telegram.
ghost use Rattle.std.specs.Prelude.{◌≡◌, ◌+◌, ◌<◌, ◌≤◌, Err, drop, length as count, take, true, false};
ghost use Rattle.bits.specs.Bits.{bits_of};
ghost use Rattle.track_packets.specs.Kinds.{kind_reported};
ghost use Rattle.track_packets.specs.Reading.{Gives, DescribesKernel};
ghost use Rattle.track_packets.specs.Whole.{fields_by_rows, is_kernels as is_kernels_reported, takes_all as takes_all_reported, takes_all_in};
ghost use Rattle.track_packets.specs.declared.reading.FieldsError.{FieldsError};

use crate::kernel::kernel_fields_of;
use crate::kind::{Body, Kind, kind_of};
use crate::layouts::{HEAD, rows_of};
use crate::listing::PacketPlace;
use crate::reading::{Fields, FieldsError, Reading};
use bits::BitReader;
use std::alloc::Global;

/// Whether the rows of a layout take all bits of a packet.
fn takes_all(body: Body) -> bool
    ensures { result ≡ takes_all_reported body }
{
    match body {
        Body::Rows | Body::OwnOrRows => true,
        Body::RowsThenBits | Body::Bits | Body::Kernel | Body::NumberOnly => false,
    }
}

/// Whether they do for a packet that has a name here.
fn kind_takes_all(kind: Option<Kind>) -> bool
    ensures { result ≡ takes_all_in kind }
{
    match kind {
        Some(kind) => takes_all(kind.body),
        None => false,
    }
}

/// The fields of a packet of so many bits, with which the reader begins, by the rows of its layout.
pub(crate) fn fields_by_rows_of(
    alloc: Global,
    reader: &BitReader<'_>,
    number: u8,
    length: u32,
) -> Result<Fields, FieldsError>
    requires { length ≤ count reader.now }
    ensures { Gives (λ f. (f.fields.items, f.rest)) result (fields_by_rows number (take length reader.now)) }
{
    let mut reading = Reading::new(alloc, reader, length);
    ok!(reading.rows(&HEAD, 3, 0));
    ok!(reading.rows(rows_of(number), 3, 0));
    reading.finish(kind_takes_all(kind_of(number)))
}

/// Whether the fields of a packet are reported by `packets`.
fn is_kernels(kind: Option<Kind>, length: u32) -> bool
    ensures { result ≡ is_kernels_reported kind length }
{
    match kind {
        Some(kind) => match kind.body {
            Body::Kernel => true,
            Body::OwnOrRows => length % 10 == 7,
            Body::Rows | Body::RowsThenBits | Body::Bits | Body::NumberOnly => false,
        },
        None => false,
    }
}

/// The fields of a packet that stands in a telegram. A packet that the kernel uses is read by its layout in `packets`
/// (also packet 3 where its length is that of this project's order), each other one by its rows here.
pub fn fields_of(alloc: Global, bytes: &[u8], place: PacketPlace) -> Result<Fields, FieldsError>
    ensures outside { count (bits_of bytes.now) < place.start + place.length → result ≡ Err FieldsError.NotThere }
    ensures kernel { place.start + place.length ≤ count (bits_of bytes.now) → is_kernels_reported (kind_reported place.number) place.length ≡ true
        → DescribesKernel (λ f. (f.fields.items, f.rest)) result (drop place.start (bits_of bytes.now)) }
    ensures rows { place.start + place.length ≤ count (bits_of bytes.now) → is_kernels_reported (kind_reported place.number) place.length ≡ false
        → Gives (λ f. (f.fields.items, f.rest)) result (fields_by_rows place.number (take place.length (drop place.start (bits_of bytes.now)))) }
{
    let mut reader = BitReader::new(bytes);
    if reader.run(place.start).is_none() {
        return Err(FieldsError::NotThere);
    }
    if reader.remaining() < u128::from(place.length) {
        return Err(FieldsError::NotThere);
    }
    if is_kernels(kind_of(place.number), place.length) {
        kernel_fields_of(alloc, &reader)
    } else {
        fields_by_rows_of(alloc, &reader, place.number, place.length)
    }
}
