//! One variable of a packet is read from its bits.
ghost use Rattle.bits.specs.Layout.{Gives, read_field};
ghost use Rattle.packets.specs.Faults.{packet_fault};
ghost use Rattle.packets.specs.declared.fault.PacketFault.{PacketFault};

use crate::fault::PacketFault;
use bits::BitReader;
use vars::Variable;

/// Reads a variable. Truncated where its bits aren't there, Spare or OutOfRange where its number has no value.
#[inline(always)]
#[tactic(auto, unfolding(bits::specs::Layout::read_field))]
pub(crate) fn field<V: Variable>(reader: &mut BitReader<'_>) -> Result<V, PacketFault>
    ensures { Gives (λ x. x) result reader.new (read_field PacketFault.Truncated packet_fault V.codes reader.old) }
{
    let number = reader.take(V::WIDTH).ok_or(PacketFault::Truncated)?;
    let value = V::of_number(number)?;
    Ok(value)
}
