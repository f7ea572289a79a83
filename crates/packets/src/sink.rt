//! Where the fields of a packet go, one by one: the trait, and the bit writer that has it.
ghost use Rattle.std.specs.Prelude.{◌≡◌, ◌+◌, ◌*◌, ◌<◌, ◌≤◌, ◌^◌, ℕ, length, OnOk};
ghost use Rattle.bits.specs.Writing.{ListedField, named, raw, with_bits};

use bits::{BitWriter, Run, VariableName};
use std::convert::Infallible;
use vars::Variable;

/// What takes fields, one after another in the order in which they are spelled (this project's profile).
pub trait FieldSink {
    /// What is said of it.
    ghost Seen: { Type 0 };

    ghost seen: { Self → Seen };

    /// What becomes of it when it takes a field.
    ghost took: { Seen → ListedField → Seen };

    /// The bits that it holds, where it has space for so many alone.
    ghost held: { Self → ℕ };

    ghost most: { ℕ };

    /// Why it takes no more.
    type Error;

    /// Takes a field: the name of its variable, the number of its bits, and the number that they spell.
    fn field(&mut self, name: VariableName, width: u32, number: u64) -> Result<(), Self::Error>
        requires width { width ≤ 64 }
        requires number { number < 2 ^ width }
        requires space { held self.old + width ≤ most }
        ensures value { OnOk result (seen self.new ≡ took (seen self.old) (named name width number)) }
        ensures held { OnOk result (held self.new ≤ held self.old + width) };

    /// Takes the bits after the fields as they are.
    fn run(&mut self, bits: &Run<'_>) -> Result<(), Self::Error>
        requires space { held self.old + length bits.now ≤ most }
        ensures value { OnOk result (seen self.new ≡ took (seen self.old) (raw bits.now)) }
        ensures held { OnOk result (held self.new ≤ held self.old + length bits.now) };
}

/// Hands the value of a variable to a sink. The error is the sink's. The caller owes space in the sink.
#[inline(always)]
pub fn put<V: Variable, S: FieldSink>(
    sink: &mut S,
    name: VariableName,
    value: &V,
) -> Result<(), S::Error>
    requires space { S.held sink.old + (V.codes).width ≤ S.most }
    ensures value { OnOk result (S.seen sink.new ≡ S.took (S.seen sink.old) (named name (V.codes).width ((V.codes).number value.now))) }
    ensures held { OnOk result (S.held sink.new ≤ S.held sink.old + (V.codes).width) }
{
    sink.field(name, V::WIDTH, value.number())
}

/// A writer takes the bits of each field.
impl<const N: usize> FieldSink for BitWriter<N> {
    ghost use Rattle.std.specs.Prelude.{◌*◌, Bool, List, length};
    ghost use Rattle.bits.specs.Writing.{with_bits};

    ghost Seen = { List Bool };

    ghost seen = { λ bits. bits };

    ghost took = { with_bits };

    ghost held = { λ bits. length bits };

    ghost most = { 8 * N };

    type Error = Infallible;

    #[inline(always)]
    fn field(&mut self, _name: VariableName, width: u32, number: u64) -> Result<(), Infallible> {
        self.write(width, number);
        Ok(())
    }

    fn run(&mut self, bits: &Run<'_>) -> Result<(), Infallible> {
        self.write_run(bits);
        Ok(())
    }
}
