//! Lists and optional parts are handed to a sink, and their bits are counted.
ghost use Rattle.std.specs.Prelude.{◌≡◌, ◌+◌, ◌*◌, ◌<◌, ◌≤◌, ◌^◌, length, OnOk};
ghost use Rattle.bits.specs.Sums.{total};
ghost use Rattle.bits.specs.Writing.{taken, each_taken, size};
ghost use Rattle.packets.specs.Parts.{from_first_taken, from_first_size, qualified_taken, qualified_size};

use crate::element::Element;
use crate::sink::FieldSink;
use arrayvec::ArrayVec;
use bits::VariableName;

/// The bits of elements.
pub(crate) fn bits_of_all<T: Element>(elements: &[T]) -> u64
    requires { length elements.now ≤ 32 }
    ensures value { result ≡ total (λ x. size T.layout x) elements.now }
    ensures bound { result ≤ 2048 }
{
    let mut total = 0;
    for element in elements {
        total += element.bits();
    }
    total
}

/// The bits of a list of at least one element, with N_ITER after the first.
#[tactic(auto, using(bits::proofs::WritingLaws::first_and_others))]
pub(crate) fn from_first_bits<T: Element>(elements: &[T]) -> u64
    requires { length elements.now ≤ 32 }
    ensures value { result ≡ from_first_size T.layout elements.now }
    ensures bound { result ≤ 2053 }
{
    5 + bits_of_all(elements)
}

/// The bits of a qualifier, and of its part.
pub(crate) fn qualified_bits<T: Element>(part: &Option<T>) -> u64
    ensures value { result ≡ qualified_size T.layout part.now }
    ensures bound { result ≤ 64 }
{
    match part {
        Some(part) => 1 + part.bits(),
        None => 1,
    }
}

/// Hands elements to a sink.
pub(crate) fn list<T: Element, S: FieldSink>(elements: &[T], sink: &mut S) -> Result<(), S::Error>
    requires space { S.held sink.old + total (λ x. size T.layout x) elements.now ≤ S.most }
    ensures value { OnOk result (S.seen sink.new ≡ each_taken (λ x s. taken S.took T.layout x s) elements.now (S.seen sink.old)) }
    ensures held { OnOk result (S.held sink.new ≤ S.held sink.old + total (λ x. size T.layout x) elements.now) }
{
    for element in elements {
        ok!(element.fields(sink));
    }
    Ok(())
}

/// Hands all elements of a list to a sink.
pub(crate) fn all<T: Element, S: FieldSink, const N: usize>(
    elements: &ArrayVec<T, N>,
    sink: &mut S,
) -> Result<(), S::Error>
    requires space { S.held sink.old + total (λ x. size T.layout x) elements.now.items ≤ S.most }
    ensures value { OnOk result (S.seen sink.new ≡ each_taken (λ x s. taken S.took T.layout x s) elements.now.items (S.seen sink.old)) }
    ensures held { OnOk result (S.held sink.new ≤ S.held sink.old + total (λ x. size T.layout x) elements.now.items) }
{
    list(elements.as_slice(), sink)
}

/// Hands a list of at least one element to a sink: the first, N_ITER and the others.
pub(crate) fn from_first<T: Element, S: FieldSink>(
    elements: &[T],
    sink: &mut S,
) -> Result<(), S::Error>
    requires few { length elements.now ≤ 32 }
    requires space { S.held sink.old + from_first_size T.layout elements.now ≤ S.most }
    ensures value { OnOk result (S.seen sink.new ≡ from_first_taken S.took T.layout elements.now (S.seen sink.old)) }
    ensures held { OnOk result (S.held sink.new ≤ S.held sink.old + from_first_size T.layout elements.now) }
{
    let first = elements.len().min(1);
    ok!(list(&elements[..first], sink));
    let more = (elements.len() as u64).saturating_sub(1);
    ok!(sink.field(VariableName::NIter, 5, more));
    ok!(list(&elements[first..], sink));
    Ok(())
}

/// Hands a qualifier, and its part, to a sink.
pub(crate) fn qualified<T: Element, S: FieldSink>(
    sink: &mut S,
    name: VariableName,
    part: &Option<T>,
) -> Result<(), S::Error>
    requires space { S.held sink.old + qualified_size T.layout part.now ≤ S.most }
    ensures value { OnOk result (S.seen sink.new ≡ qualified_taken S.took T.layout name part.now (S.seen sink.old)) }
    ensures held { OnOk result (S.held sink.new ≤ S.held sink.old + qualified_size T.layout part.now) }
{
    match part {
        Some(part) => {
            ok!(sink.field(name, 1, 1));
            part.fields(sink)
        }
        None => sink.field(name, 1, 0),
    }
}
