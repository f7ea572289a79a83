//! Parts of a packet with a layout of their own, and how lists and optional parts of them are read.
ghost use Rattle.std.specs.Prelude.{◌≡◌, ◌+◌, ◌*◌, ◌<◌, ◌≤◌, ◌^◌, ◌↔◌, ℕ, [], length, IsTrue, OnOk};
ghost use Rattle.bits.specs.Fitting.{Spellable};
ghost use Rattle.bits.specs.Layout.{Gives, Layout, part, read, read_more};
ghost use Rattle.bits.specs.Sums.{total};
ghost use Rattle.bits.specs.Writing.{taken, each_taken, size};
ghost use Rattle.packets.specs.Parts.{read_from_first as from_first_read, read_qualified as qualified_read};
ghost use Rattle.packets.specs.declared.fault.PacketFault.{PacketFault};

use crate::fault::PacketFault;
use crate::reading::field;
use crate::sink::FieldSink;
use arrayvec::ArrayVec;
use bits::BitReader;
use vars::Iterations;

/// A part of a packet that has a layout of its own: an element of a list, or what a qualifier says is there.
pub(crate) trait Element: Copy {
    /// How it is spelled in bits.
    ghost layout: { Layout PacketFault Self Self };

    /// Reads one.
    fn read(reader: &mut BitReader<'_>) -> Result<Self, PacketFault>
        ensures { Gives (λ x. x) result reader.new (read layout reader.old) };

    /// Hands its fields to a sink.
    fn fields<S: FieldSink>(&self, sink: &mut S) -> Result<(), S::Error>
        requires space { S.held sink.old + size layout self.now ≤ S.most }
        ensures value { OnOk result (S.seen sink.new ≡ taken S.took layout self.now (S.seen sink.old)) }
        ensures held { OnOk result (S.held sink.new ≤ S.held sink.old + size layout self.now) };

    /// The number of its bits.
    fn bits(&self) -> u64
        ensures value { result ≡ size layout self.now }
        ensures bound { result < 64 };

    /// Whether it is as its layout wants it, so that there are bits that spell it.
    fn fits(&self) -> bool
        ensures { IsTrue result ↔ Spellable layout self.now };
}

/// Reads so many more elements of a list.
pub(crate) fn read_list<T: Element + Default, const N: usize>(
    reader: &mut BitReader<'_>,
    list: &mut ArrayVec<T, N>,
    count: u8,
) -> Result<(), PacketFault>
    requires { length list.old.items + count ≤ N }
    ensures value { Gives (λ _. list.new.items) result reader.new (read_more (read T.layout) count list.old.items reader.old) }
    ensures len { OnOk result (length list.new.items ≡ length list.old.items + count) }
{
    for i in 0..count {
        let element = ok!(T::read(reader));
        list.push(element);
    }
    Ok(())
}

/// Reads a list of at least one element: the first, N_ITER and the others.
#[inline(always)]
pub(crate) fn read_from_first<T: Element + Default>(
    reader: &mut BitReader<'_>,
    list: &mut ArrayVec<T, 32>,
) -> Result<(), PacketFault>
    requires { list.old.items ≡ [] }
    ensures { Gives (λ _. list.new.items) result reader.new (from_first_read T.layout reader.old) }
{
    ok!(read_list(reader, list, 1));
    let more: Iterations = ok!(field(reader));
    read_list(reader, list, more.count())
}

/// Reads a part where it is given.
#[inline(always)]
pub(crate) fn read_part<T: Element>(
    reader: &mut BitReader<'_>,
    given: bool,
) -> Result<Option<T>, PacketFault>
    ensures { Gives (λ x. x) result reader.new (read (part given T.layout (λ x. x)) reader.old) }
{
    if !given {
        return Ok(None);
    }
    let part = ok!(T::read(reader));
    Ok(Some(part))
}

/// Reads a qualifier, and its part.
#[inline(always)]
pub(crate) fn read_qualified<T: Element>(
    reader: &mut BitReader<'_>,
) -> Result<Option<T>, PacketFault>
    ensures { Gives (λ x. x) result reader.new (qualified_read T.layout reader.old) }
{
    let given: bool = ok!(field(reader));
    read_part(reader, given)
}
