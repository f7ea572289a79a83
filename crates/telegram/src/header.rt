//! The 50 bits in front of a telegram's packets, read and handed to a sink.
ghost use Rattle.std.specs.Prelude.{◌≡◌, ◌↔◌, ◌+◌, ◌≤◌, ◌<◌, ◌^◌, IsTrue, OnOk};
ghost use Rattle.bits.specs.Fitting.{Spellable};
ghost use Rattle.bits.specs.Layout.{Gives, read, read_field};
ghost use Rattle.bits.specs.Writing.{taken};
ghost use Rattle.telegram.specs.Faults.{value_fault};
ghost use Rattle.telegram.specs.Telegrams.{header as header_layout, only};

use crate::fault::TelegramFault;
use bits::{BitReader, VariableName};
use packets::{FieldSink, ok, put};
use vars::{
    Country, Duplicate, GroupIdentity, GroupNumber, MessageCounter, PositionInGroup, Variable,
    has_number,
};

/// The number of the bits of a header (SUBSET-026, 8.4.2).
pub const HEADER_BITS: u32 = 50;

/// The header of a telegram (SUBSET-026, 8.4.2). Its direction is up, its version 16 and its medium a balise.
#[derive(Clone, Copy)]
pub struct Header {
    /// N_PIG: the place of the balise in its group.
    pub position: PositionInGroup,
    /// N_TOTAL: the place of the last balise of the group.
    pub last_position: PositionInGroup,
    /// M_DUP.
    pub duplicate: Duplicate,
    /// M_MCOUNT.
    pub counter: MessageCounter,
    /// NID_C and NID_BG.
    pub group: GroupIdentity,
    /// Q_LINK: whether the group may be announced by linking.
    pub linked: bool,
}

/// A header to be filled.
impl Default for Header {
    fn default() -> Header {
        Header {
            position: PositionInGroup::of_number(0).unwrap(),
            last_position: PositionInGroup::of_number(0).unwrap(),
            duplicate: Duplicate::NoDuplicate,
            counter: MessageCounter::of_number(0).unwrap(),
            group: GroupIdentity {
                country: Country::of_number(0).unwrap(),
                number: GroupNumber::of_number(0).unwrap(),
            },
            linked: false,
        }
    }
}

impl Header {
    /// Hands all fields to the sink, `HEADER_BITS` in all; stops with the sink's error where it takes no more. The
    /// caller owes space in the sink.
    #[tactic(auto, unfolding(crate::specs::Telegrams::header))]
    pub fn fields<S: FieldSink>(&self, sink: &mut S) -> Result<(), S::Error>
        requires space { S.held sink.old + HEADER_BITS ≤ S.most }
        ensures { OnOk result (S.seen sink.new ≡ taken S.took header_layout self.now (S.seen sink.old)) }
    {
        ok!(sink.field(VariableName::QUpdown, 1, 1));
        ok!(sink.field(VariableName::MVersion, 7, 16));
        ok!(sink.field(VariableName::QMedia, 1, 0));
        ok!(put(sink, VariableName::NPig, &self.position));
        ok!(put(sink, VariableName::NTotal, &self.last_position));
        ok!(put(sink, VariableName::MDup, &self.duplicate));
        ok!(put(sink, VariableName::MMcount, &self.counter));
        ok!(put(sink, VariableName::NidC, &self.group.country));
        ok!(put(sink, VariableName::NidBg, &self.group.number));
        put(sink, VariableName::QLink, &self.linked)
    }
}

impl Header {
    /// Whether it is as its layout wants it.
    #[tactic(auto, unfolding(crate::specs::Telegrams::header), using(crate::proofs::Lengths::only_has))]
    pub(crate) fn fits(&self) -> bool
        ensures { IsTrue result ↔ Spellable header_layout self.now }
    {
        self.position <= self.last_position
            && has_number(&self.position)
            && has_number(&self.last_position)
            && has_number(&self.duplicate)
            && has_number(&self.counter)
            && has_number(&self.group.country)
            && has_number(&self.group.number)
            && has_number(&self.linked)
    }
}

/// Reads a variable.
#[inline(always)]
#[tactic(auto, unfolding(bits::specs::Layout::read_field))]
pub(crate) fn field<V: Variable>(
    reader: &mut BitReader<'_>,
    short: TelegramFault,
) -> Result<V, TelegramFault>
    ensures { Gives (λ x. x) result reader.new (read_field short value_fault V.codes reader.old) }
{
    let number = reader.take(V::WIDTH).ok_or(short)?;
    let value = V::of_number(number)?;
    Ok(value)
}

/// Reads a field that has one value alone.
#[inline(always)]
#[tactic(auto, unfolding(bits::specs::Layout::read_field))]
fn fixed(
    reader: &mut BitReader<'_>,
    width: u32,
    value: u64,
    other: TelegramFault,
) -> Result<(), TelegramFault>
    requires { width ≤ 8 }
    ensures { Gives (λ x. x) result reader.new (read_field TelegramFault.Truncated (λ e. e) (only width value other) reader.old) }
{
    let number = reader.take(width).ok_or(TelegramFault::Truncated)?;
    if number != value {
        return Err(other);
    }
    Ok(())
}

#[inline(always)]
fn variable<V: Variable>(reader: &mut BitReader<'_>) -> Result<V, TelegramFault>
    ensures { Gives (λ x. x) result reader.new (read_field TelegramFault.Truncated value_fault V.codes reader.old) }
{
    field(reader, TelegramFault::Truncated)
}

#[tactic(auto, unfolding(crate::specs::Telegrams::header))]
pub(crate) fn read_header(reader: &mut BitReader<'_>) -> Result<Header, TelegramFault>
    ensures { Gives (λ x. x) result reader.new (read header_layout reader.old) }
{
    ok!(fixed(reader, 1, 1, TelegramFault::NotUplink));
    ok!(fixed(reader, 7, 16, TelegramFault::WrongVersion));
    ok!(fixed(reader, 1, 0, TelegramFault::NotBalise));
    let position: PositionInGroup = ok!(variable(reader));
    let last_position: PositionInGroup = ok!(variable(reader));
    if last_position < position {
        return Err(TelegramFault::OutOfRange);
    }
    let duplicate: Duplicate = ok!(variable(reader));
    let counter: MessageCounter = ok!(variable(reader));
    let country: Country = ok!(variable(reader));
    let number: GroupNumber = ok!(variable(reader));
    let linked: bool = ok!(variable(reader));
    Ok(Header {
        position,
        last_position,
        duplicate,
        counter,
        group: GroupIdentity { country, number },
        linked,
    })
}
