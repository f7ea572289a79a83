//! A packet is read by its number, and no two packets share a spelling.
ghost use Rattle.std.specs.Prelude.{◌≡◌, ◌↔◌, ◌==◌, ◌+◌, ◌++◌, List, Bool, Ok, Err, IfOk, OnErr};
ghost use Rattle.bits.specs.Layout.{Begins, Gives, Refuses, Spells, kind, read, read_run};
ghost use Rattle.packets.specs.Layouts.{skipped};
ghost use Rattle.packets.specs.Packets.{as_packet, as_other, body_of, packet, packet_of};
ghost use Rattle.packets.specs.declared.fault.PacketFault.{PacketFault};
ghost use Rattle.packets.specs.declared.packet.Packet.{Packet};
ghost use Rattle.packets.specs.declared.packet.Packet.TheVariants as a_packet;

use crate::authority::read_movement_authority;
use crate::fault::PacketFault;
use crate::gradients::read_gradients;
use crate::level_transition::read_level_transition;
use crate::linking::read_linking;
use crate::mode_profile::read_mode_profile;
use crate::national::read_national_values;
use crate::packet::{Other, Packet};
use crate::reading::field;
use crate::restrictions::{read_restriction, read_revocation};
use crate::static_speeds::read_static_speeds;
use bits::{BitReader, Run};
use vars::{PacketLength, PacketNumber};

/// Takes so many bits as they are.
#[tactic(auto, unfolding(bits::specs::Layout::read_run))]
fn run<'a>(reader: &mut BitReader<'a>, bits: u32) -> Result<Run<'a>, PacketFault>
    ensures { Gives (λ b. b) result reader.new (read_run bits PacketFault.Truncated reader.old) }
{
    reader.run(bits).ok_or(PacketFault::Truncated)
}

/// Reads a packet that is skipped, after its number, into the place of another packet; answers its L_PACKET.
#[tactic(auto, unfolding(crate::specs::Layouts::skipped_description))]
fn read_other<'a>(
    reader: &mut BitReader<'a>,
    number: PacketNumber,
    out: &mut Packet<'a>,
) -> Result<PacketLength, PacketFault>
    ensures { Gives (λ reported. (reported, out.new)) result reader.new (read (kind (as_packet a_packet.Other) as_other (skipped number)) reader.old) }
{
    let direction = field(reader)?;
    let reported: PacketLength = field(reader)?;
    if reported.bits() < 23 {
        return Err(PacketFault::WrongLength);
    }
    let body = run(reader, u32::from(reported.bits()) - 23)?;
    *out = Packet::Other(Other {
        number,
        direction,
        body,
    });
    Ok(reported)
}

#[inline(always)]
#[tactic(auto, unfolding(crate::specs::Packets::body_of))]
fn read_body<'a>(
    reader: &mut BitReader<'a>,
    number: PacketNumber,
    out: &mut Packet<'a>,
) -> Result<PacketLength, PacketFault>
    ensures { Gives (λ reported. (reported, out.new)) result reader.new (read (body_of number) reader.old) }
{
    match number.get() {
        3 => read_national_values(reader, out),
        5 => read_linking(reader, out),
        12 => read_movement_authority(reader, out),
        21 => read_gradients(reader, out),
        27 => read_static_speeds(reader, out),
        41 => read_level_transition(reader, out),
        65 => read_restriction(reader, out),
        66 => read_revocation(reader, out),
        80 => read_mode_profile(reader, out),
        _ => read_other(reader, number, out),
    }
}

/// Reads what follows the number of a packet, into the place of another packet. A fault leaves the reader where the
/// fault was found.
#[tactic(auto, unfolding(crate::specs::Packets::packet_of))]
pub fn read_numbered<'a>(
    reader: &mut BitReader<'a>,
    number: PacketNumber,
    out: &mut Packet<'a>,
) -> Result<(), PacketFault>
    ensures { Gives (λ _. out.new) result reader.new (read (packet_of number) reader.old) }
{
    if number.get() == 255 {
        return Err(PacketFault::OutOfRange);
    }
    let before = reader.remaining();
    let reported = read_body(reader, number, out)?;
    let taken = before.saturating_sub(reader.remaining());
    if is_length(reported, taken) {
        Ok(())
    } else {
        Err(PacketFault::WrongLength)
    }
}

// Whether an L_PACKET is that of a packet that has so many bits after its number.
fn is_length(reported: PacketLength, taken: u128) -> bool
    ensures { result ≡ (reported == 8 + taken) }
{
    u128::from(reported.bits()).checked_sub(8) == Some(taken)
}

#[tactic(auto, unfolding(crate::specs::Packets::packet))]
fn whole<'a>(reader: &mut BitReader<'a>) -> Result<Packet<'a>, PacketFault>
    ensures { Gives (λ p. p) result reader.new (read packet reader.old) }
{
    let number = field(reader)?;
    let mut out: Packet<'a> = Packet::default();
    read_numbered(reader, number, &mut out)?;
    Ok(out)
}

/// Reads the packet that the bits begin with. A fault is the first one in the order of the bits; the reader is
/// then where it was.
pub fn read_packet<'a>(reader: &mut BitReader<'a>) -> Result<Packet<'a>, PacketFault>
    ensures found { IfOk result (λ p. Begins packet p reader.old reader.new) }
    ensures only { (p : Packet) (rest : List Bool) → Begins packet p reader.old rest → (result ≡ Ok p) × (reader.new ≡ rest) }
    ensures fault { (e : PacketFault) → (result ≡ Err e) ↔ Refuses packet e reader.old }
    ensures err { OnErr result (reader.new ≡ reader.old) }
    ensures spelled { IfOk result (λ p. (bits : List Bool) × Spells packet p bits) }
{
    let mut trial = reader.fork();
    let packet = whole(&mut trial)?;
    *reader = trial;
    Ok(packet)
}

/// No spelling of a packet begins another one, and no two packets share one.
pub fn one_spelling()
    ensures { (p q : Packet) (a b u v : List Bool) → Spells packet p a → Spells packet q b → a ++ u ≡ b ++ v → (p ≡ q) × (a ≡ b) }
{}
