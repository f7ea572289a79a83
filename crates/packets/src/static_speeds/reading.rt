//! A static speed profile is read.
ghost use Rattle.std.specs.Prelude.{◌≡◌, ◌+◌, ◌≤◌, ◌<◌, length, OnOk};
ghost use Rattle.bits.specs.Layout.{Gives, folded, kind, read};
ghost use Rattle.packets.specs.Layouts.{static_step, static_speeds};
ghost use Rattle.packets.specs.Packets.{as_packet, as_static_speeds};
ghost use Rattle.packets.specs.declared.packet.Packet.TheVariants as packets;

use crate::element::read_list;
use crate::fault::PacketFault;
use crate::heads::read_head;
use crate::packet::Packet;
use crate::reading::field;
use crate::static_speeds::{StaticSpeeds, StaticStep};
use arrayvec::ArrayVec;
use bits::BitReader;
use vars::{Iterations, PacketLength};

#[tactic(auto, unfolding(crate::specs::Layouts::static_step))]
fn read_step(reader: &mut BitReader<'_>, speeds: &mut StaticSpeeds) -> Result<(), PacketFault>
    requires few { length speeds.old.steps.items < 32 }
    requires space { length speeds.old.differences.items ≤ 70 }
    ensures value { Gives (λ _. speeds.new) result reader.new (read (static_step speeds.old) reader.old) }
    ensures len { OnOk result (length speeds.new.steps.items ≡ length speeds.old.steps.items + 1) }
    ensures space { OnOk result (length speeds.new.differences.items ≤ 70) }
{
    let distance = ok!(field(reader));
    let speed = ok!(field(reader));
    let delay = ok!(field(reader));
    let differences: Iterations = ok!(field(reader));
    if speeds.differences.len() + usize::from(differences.count()) > 70 {
        return Err(PacketFault::OutOfRange);
    }
    ok!(read_list(reader, &mut speeds.differences, differences.count()));
    speeds.steps.push(StaticStep {
        distance,
        speed,
        delay,
        differences,
    });
    Ok(())
}

fn read_steps(
    reader: &mut BitReader<'_>,
    speeds: &mut StaticSpeeds,
    count: u8,
) -> Result<(), PacketFault>
    requires few { length speeds.old.steps.items + count ≤ 32 }
    requires space { length speeds.old.differences.items ≤ 70 }
    ensures { Gives (λ _. speeds.new) result reader.new (read (folded static_step count speeds.old) reader.old) }
{
    for i in 0..count {
        ok!(read_step(reader, speeds));
    }
    Ok(())
}

/// Reads packet 27 after its number, into the place of another packet; answers its L_PACKET, in bits. The error is the
/// first fault in the order of the bits.
#[tactic(auto, unfolding(crate::specs::Layouts::static_speeds_description))]
pub(crate) fn read_static_speeds<'a>(
    reader: &mut BitReader<'a>,
    out: &mut Packet<'a>,
) -> Result<PacketLength, PacketFault>
    ensures { Gives (λ reported. (reported, out.new)) result reader.new (read (kind (as_packet packets.StaticSpeeds) as_static_speeds static_speeds) reader.old) }
{
    let (direction, reported, scale) = ok!(read_head(reader));
    *out = Packet::StaticSpeeds(StaticSpeeds {
        direction,
        scale,
        steps: ArrayVec::new(),
        differences: ArrayVec::new(),
    });
    let Packet::StaticSpeeds(speeds) = out else {
        return Err(PacketFault::OutOfRange);
    };
    ok!(read_step(reader, speeds));
    let more: Iterations = ok!(field(reader));
    ok!(read_steps(reader, speeds, more.count()));
    Ok(reported)
}
