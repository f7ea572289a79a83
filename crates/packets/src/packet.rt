//! Any packet: one of the nine with a layout of their own, or another, skipped by its length.
ghost use Rattle.std.specs.Prelude.{◌≡◌, ◌↔◌, ◌+◌, ◌<◌, ◌≤◌, ◌^◌, List, Bool, length, IsTrue, OnOk};
ghost use Rattle.bits.specs.Fitting.{HasNumber};
ghost use Rattle.bits.specs.Layout.{Spells};
ghost use Rattle.bits.specs.Writing.{size, taken};
ghost use Rattle.packets.specs.Layouts.{skipped_description};
ghost use Rattle.packets.specs.Packets.{length_of, packet_taken};
ghost use Rattle.packets.specs.Spelling.{IsSkipped, PacketFits};
ghost use Rattle.vars.specs.Variables.{nid_packet, untested_direction};

use crate::authority::MovementAuthority;
use crate::gradients::Gradients;
use crate::level_transition::LevelTransition;
use crate::linking::Linking;
use crate::mode_profile::ModeProfile;
use crate::national::NationalValues;
use crate::restrictions::{RestrictionRevocation, SpeedRestriction};
use crate::sink::{FieldSink, put};
use crate::static_speeds::StaticSpeeds;
use bits::{Run, VariableName};
use vars::{
    PacketNumber, RestrictionNumber, UntestedDirection, ValidityDirection, Variable, has_number,
};

/// A packet of another number, which is skipped by its length (SUBSET-026, 7.4.2).
#[derive(Drop)]
pub struct Other<'a> {
    /// NID_PACKET.
    pub number: PacketNumber,
    /// Q_DIR.
    pub direction: UntestedDirection,
    /// What follows L_PACKET, where it lies in the telegram.
    pub body: Run<'a>,
}

/// A packet of a telegram (SUBSET-026, 7.4.2).
#[derive(Drop)]
pub enum Packet<'a> {
    /// Packet 3.
    NationalValues(NationalValues),
    /// Packet 5.
    Linking(Linking),
    /// Packet 12.
    MovementAuthority(MovementAuthority),
    /// Packet 21.
    Gradients(Gradients),
    /// Packet 27.
    StaticSpeeds(StaticSpeeds),
    /// Packet 41.
    LevelTransition(LevelTransition),
    /// Packet 65.
    SpeedRestriction(SpeedRestriction),
    /// Packet 66.
    RestrictionRevocation(RestrictionRevocation),
    /// Packet 80.
    ModeProfile(ModeProfile),
    /// Each other packet, which is skipped.
    Other(Other<'a>),
}

/// The greatest length that L_PACKET can hold.
const MOST_BITS: u64 = 8191;

/// The L_PACKET of a length: of one that it can't hold its lowest bits.
fn reported_length(length: u64) -> u64
    ensures bound { result < 2 ^ 13 }
    ensures same { length < 2 ^ 13 → result ≡ length }
{
    length % (MOST_BITS + 1)
}

/// Whether packets of a number are skipped: it isn't that of a packet with a layout of its own, nor the end of a
/// telegram.
fn is_skipped(number: PacketNumber) -> bool
    ensures { IsTrue result ↔ IsSkipped number }
{
    match number.get() {
        3 | 5 | 12 | 21 | 27 | 41 | 65 | 66 | 80 | 255 => false,
        _ => true,
    }
}

impl<'a> Other<'a> {
    /// Whether its number is that of a packet that is skipped.
    fn fits(&self) -> bool
        ensures { IsTrue result ↔ (HasNumber nid_packet self.now.number × HasNumber untested_direction self.now.direction × IsSkipped self.now.number) }
    {
        has_number(&self.number) && has_number(&self.direction) && is_skipped(self.number)
    }

    /// The number of bits, those of NID_PACKET included.
    #[tactic(auto, unfolding(crate::specs::Layouts::skipped_description))]
    fn bits(&self) -> u64
        ensures value { result ≡ 8 + size (skipped_description self.now.number (λ _. 0)) self.now }
        ensures bound { result < 2 ^ 33 }
    {
        23 + u64::from(self.body.len())
    }

    /// Hands the fields after NID_PACKET to a sink, with its L_PACKET.
    #[tactic(auto, unfolding(crate::specs::Layouts::skipped_description))]
    fn fields<S: FieldSink>(&self, reported: u64, sink: &mut S) -> Result<(), S::Error>
        requires reported { reported < 2 ^ 13 }
        requires space { S.held sink.old + size (skipped_description self.now.number (λ _. 0)) self.now ≤ S.most }
        ensures { OnOk result (S.seen sink.new ≡ taken S.took (skipped_description self.now.number (λ _. reported)) self.now (S.seen sink.old)) }
    {
        ok!(put(sink, VariableName::QDir, &self.direction));
        ok!(sink.field(VariableName::LPacket, 13, reported));
        sink.run(&self.body)
    }
}

impl<'a> Packet<'a> {
    ghost use Rattle.packets.specs.Packets.{packet, number_of};

    /// NID_PACKET.
    pub fn number(&self) -> PacketNumber
        ensures { result ≡ number_of self.now }
    {
        let number = match self {
            Packet::NationalValues(_) => 3,
            Packet::Linking(_) => 5,
            Packet::MovementAuthority(_) => 12,
            Packet::Gradients(_) => 21,
            Packet::StaticSpeeds(_) => 27,
            Packet::LevelTransition(_) => 41,
            Packet::SpeedRestriction(_) => 65,
            Packet::RestrictionRevocation(_) => 66,
            Packet::ModeProfile(_) => 80,
            Packet::Other(other) => return other.number,
        };
        PacketNumber::of_number(number).unwrap()
    }

    /// The number of bits, those of NID_PACKET included.
    fn bits(&self) -> u64
        ensures value { result ≡ length_of self.now }
        ensures bound { result < 2 ^ 33 }
    {
        match self {
            Packet::NationalValues(packet) => packet.bits(),
            Packet::Linking(packet) => packet.bits(),
            Packet::MovementAuthority(packet) => packet.bits(),
            Packet::Gradients(packet) => packet.bits(),
            Packet::StaticSpeeds(packet) => packet.bits(),
            Packet::LevelTransition(packet) => packet.bits(),
            Packet::SpeedRestriction(packet) => packet.bits(),
            Packet::RestrictionRevocation(packet) => packet.bits(),
            Packet::ModeProfile(packet) => packet.bits(),
            Packet::Other(packet) => packet.bits(),
        }
    }

    /// The length in bits, from NID_PACKET on: L_PACKET of a packet that has a spelling.
    pub fn length(&self) -> u64
        ensures value { result ≡ length_of self.now }
        ensures bound { result < 2 ^ 33 }
        ensures spelled { (bits : List Bool) → Spells packet self.now bits → length bits ≡ result }
    {
        self.bits()
    }

    /// Whether it is as its layout wants it, but for its L_PACKET.
    fn fits(&self) -> bool
        ensures { IsTrue result ↔ PacketFits self.now }
    {
        match self {
            Packet::NationalValues(packet) => packet.fits(),
            Packet::Linking(packet) => packet.fits(),
            Packet::MovementAuthority(packet) => packet.fits(),
            Packet::Gradients(packet) => packet.fits(),
            Packet::StaticSpeeds(packet) => packet.fits(),
            Packet::LevelTransition(packet) => packet.fits(),
            Packet::SpeedRestriction(packet) => packet.fits(),
            Packet::RestrictionRevocation(packet) => packet.fits(),
            Packet::ModeProfile(packet) => packet.fits(),
            Packet::Other(packet) => packet.fits(),
        }
    }

    /// Whether there are bits that spell it (SUBSET-026, 7.4.2). There are none of a list that wants a first element
    /// and has none; of a level order with a transmission module that its level hasn't, or without one that it has; of
    /// a static speed profile whose steps count other differences than there are; of a distance or a length whose
    /// number is kept for another value; of an `Other` with the number of a packet that isn't skipped, or longer than
    /// L_PACKET can hold.
    #[tactic(auto, using(crate::proofs::AnyPacket::has_spelling))]
    pub fn has_spelling(&self) -> bool
        ensures { IsTrue result ↔ ((bits : List Bool) × Spells packet self.now bits) }
    {
        self.bits() <= MOST_BITS && self.fits()
    }

    /// Hands the fields after NID_PACKET to a sink, with its L_PACKET.
    fn fields_description<S: FieldSink>(&self, reported: u64, sink: &mut S) -> Result<(), S::Error>
        requires reported { reported < 2 ^ 13 }
        requires space { S.held sink.old + length_of self.now ≤ S.most + 8 }
        ensures { OnOk result (S.seen sink.new ≡ packet_taken S.took reported self.now (S.seen sink.old)) }
    {
        match self {
            Packet::NationalValues(packet) => packet.fields(reported, sink),
            Packet::Linking(packet) => packet.fields(reported, sink),
            Packet::MovementAuthority(packet) => packet.fields(reported, sink),
            Packet::Gradients(packet) => packet.fields(reported, sink),
            Packet::StaticSpeeds(packet) => packet.fields(reported, sink),
            Packet::LevelTransition(packet) => packet.fields(reported, sink),
            Packet::SpeedRestriction(packet) => packet.fields(reported, sink),
            Packet::RestrictionRevocation(packet) => packet.fields(reported, sink),
            Packet::ModeProfile(packet) => packet.fields(reported, sink),
            Packet::Other(packet) => packet.fields(reported, sink),
        }
    }

    /// Hands the fields after NID_PACKET to the sink, and then the bits that are skipped; stops with the sink's error
    /// where it takes no more. The caller owes the packet's own length in bits (`length`), and space in the sink. Where
    /// L_PACKET can't hold the length, the packet has no spelling, and nothing is said of what the sink takes.
    pub fn fields<S: FieldSink>(&self, length: u64, sink: &mut S) -> Result<(), S::Error>
        requires length { length ≡ length_of self.now }
        requires space { S.held sink.old + length ≤ S.most + 8 }
        ensures { length < 2 ^ 13 → OnOk result (S.seen sink.new ≡ packet_taken S.took length self.now (S.seen sink.old)) }
    {
        self.fields_description(reported_length(length), sink)
    }
}

/// A packet that fills unused elements.
impl<'a> Default for Packet<'a> {
    fn default() -> Packet<'a> {
        Packet::RestrictionRevocation(RestrictionRevocation {
            direction: ValidityDirection::Reverse,
            number: RestrictionNumber::of_number(0).unwrap(),
        })
    }
}
