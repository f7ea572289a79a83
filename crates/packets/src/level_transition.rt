//! Packet 41: where the level changes, and to which levels; read and handed to a sink (this project's profile).
ghost use Rattle.std.specs.Prelude.{◌≡◌, ◌+◌, ◌<◌, ◌≤◌, ◌^◌, length, OnOk, ◌↔◌, IsTrue};
ghost use Rattle.bits.specs.Fitting.{Fits};
ghost use Rattle.bits.specs.Layout.{Gives, kind, read};
ghost use Rattle.bits.specs.Writing.{size, taken};
ghost use Rattle.packets.specs.Elements.{has_stm as has_stm_of};
ghost use Rattle.packets.specs.Layouts.{level_transition, level_transition_description};
ghost use Rattle.packets.specs.Packets.{as_packet, as_level_transition};
ghost use Rattle.packets.specs.declared.packet.Packet.TheVariants as packets;

use crate::element::{Element, read_from_first, read_part};
use crate::fault::PacketFault;
use crate::fitting::{from_first_fits, part_fits};
use crate::heads::{head_fits, put_head, read_head};
use crate::packet::Packet;
use crate::reading::field;
use crate::sink::{FieldSink, put};
use crate::walk::{from_first, from_first_bits};
use arrayvec::ArrayVec;
use bits::{BitReader, VariableName};
use vars::{
    Distance, Level, PacketLength, Scale, StartPlace, StmIdentity, ValidityDirection, Variable,
    has_number,
};

/// Whether a level has a specific transmission module.
fn has_stm(level: Level) -> bool
    ensures { result ≡ has_stm_of level }
{
    match level {
        Level::Stm => true,
        Level::Level0 | Level::Level1 | Level::Level2 | Level::Level3 => false,
    }
}

impl Element for StmIdentity {
    ghost use Rattle.packets.specs.Elements.{stm_identity};

    ghost layout = { stm_identity };

    #[tactic(auto, unfolding(crate::specs::Elements::stm_identity))]
    fn read(reader: &mut BitReader<'_>) -> Result<StmIdentity, PacketFault> {
        field(reader)
    }

    #[tactic(auto, unfolding(crate::specs::Elements::stm_identity))]
    fn fields<S: FieldSink>(&self, sink: &mut S) -> Result<(), S::Error> {
        put(sink, VariableName::NidStm, self)
    }

    #[tactic(auto, unfolding(crate::specs::Elements::stm_identity))]
    fn bits(&self) -> u64 {
        8
    }

    #[tactic(auto, unfolding(crate::specs::Elements::stm_identity))]
    fn fits(&self) -> bool {
        has_number(self)
    }
}

/// A level that a transition leads to (SUBSET-026, 7.4.2; its layout: this project's profile). A train takes the first
/// that it can run in.
#[derive(Clone, Copy)]
pub struct LevelOrder {
    /// M_LEVELTR.
    pub level: Level,
    /// NID_STM, where the level is that of a national system.
    pub stm: Option<StmIdentity>,
    /// L_ACKLEVELTR: how far before the place it may be acknowledged.
    pub acknowledgement: Distance,
}

/// Fills unused elements.
impl Default for LevelOrder {
    fn default() -> LevelOrder {
        LevelOrder {
            level: Level::Level0,
            stm: None,
            acknowledgement: Distance::of_number(0).unwrap(),
        }
    }
}

impl Element for LevelOrder {
    ghost use Rattle.packets.specs.Elements.{level_order};

    ghost layout = { level_order };

    #[tactic(auto, unfolding(crate::specs::Elements::level_order))]
    fn read(reader: &mut BitReader<'_>) -> Result<LevelOrder, PacketFault> {
        let level: Level = ok!(field(reader));
        let stm = ok!(read_part(reader, has_stm(level)));
        let acknowledgement = ok!(field(reader));
        Ok(LevelOrder {
            level,
            stm,
            acknowledgement,
        })
    }

    #[tactic(auto, unfolding(crate::specs::Elements::level_order))]
    fn fields<S: FieldSink>(&self, sink: &mut S) -> Result<(), S::Error> {
        ok!(put(sink, VariableName::MLeveltr, &self.level));
        if let Some(stm) = &self.stm {
            ok!(stm.fields(sink));
        }
        put(sink, VariableName::LAckleveltr, &self.acknowledgement)
    }

    #[tactic(auto, unfolding(crate::specs::Elements::level_order, crate::specs::Elements::stm_identity))]
    fn bits(&self) -> u64 {
        match &self.stm {
            Some(_) => 26,
            None => 18,
        }
    }

    #[tactic(auto, unfolding(crate::specs::Elements::level_order))]
    fn fits(&self) -> bool {
        has_number(&self.level)
            && part_fits(has_stm(self.level), &self.stm)
            && has_number(&self.acknowledgement)
    }
}

/// Packet 41: a change of level is announced (SUBSET-026, 7.4.2; its layout: this project's profile).
#[derive(Drop)]
pub struct LevelTransition {
    /// Q_DIR.
    pub direction: ValidityDirection,
    /// Q_SCALE.
    pub scale: Scale,
    /// D_LEVELTR.
    pub start: StartPlace,
    /// The levels, the one to be preferred first.
    pub orders: ArrayVec<LevelOrder, 32>,
}

/// Reads packet 41 after its number, into the place of another packet; answers its L_PACKET, in bits. The error is the
/// first fault in the order of the bits.
#[tactic(auto, unfolding(crate::specs::Layouts::level_transition_description))]
pub(crate) fn read_level_transition<'a>(
    reader: &mut BitReader<'a>,
    out: &mut Packet<'a>,
) -> Result<PacketLength, PacketFault>
    ensures { Gives (λ reported. (reported, out.new)) result reader.new (read (kind (as_packet packets.LevelTransition) as_level_transition level_transition) reader.old) }
{
    let (direction, reported, scale) = ok!(read_head(reader));
    let start = ok!(field(reader));
    *out = Packet::LevelTransition(LevelTransition {
        direction,
        scale,
        start,
        orders: ArrayVec::new(),
    });
    let Packet::LevelTransition(LevelTransition { orders, .. }) = out else {
        return Err(PacketFault::OutOfRange);
    };
    ok!(read_from_first(reader, orders));
    Ok(reported)
}

impl LevelTransition {
    /// The number of bits, those of NID_PACKET included.
    #[tactic(auto, unfolding(crate::specs::Layouts::level_transition_description))]
    pub(crate) fn bits(&self) -> u64
        ensures value { result ≡ 8 + size (level_transition_description (λ _. 0)) self.now }
        ensures bound { result < 2 ^ 13 }
    {
        40 + from_first_bits(self.orders.as_slice())
    }

    /// Whether it is as its layout wants it, but for its L_PACKET.
    #[tactic(auto, unfolding(crate::specs::Layouts::level_transition_description))]
    pub(crate) fn fits(&self) -> bool
        ensures { IsTrue result ↔ Fits (level_transition_description (λ _. 0)) self.now }
    {
        head_fits(&self.direction, &self.scale)
            && has_number(&self.start)
            && from_first_fits(self.orders.as_slice())
    }

    /// Hands the fields after NID_PACKET to a sink, with its L_PACKET.
    #[tactic(auto, unfolding(crate::specs::Layouts::level_transition_description))]
    pub(crate) fn fields<S: FieldSink>(&self, reported: u64, sink: &mut S) -> Result<(), S::Error>
        requires reported { reported < 2 ^ 13 }
        requires space { S.held sink.old + size (level_transition_description (λ _. 0)) self.now ≤ S.most }
        ensures { OnOk result (S.seen sink.new ≡ taken S.took (level_transition_description (λ _. reported)) self.now (S.seen sink.old)) }
    {
        ok!(put_head(sink, &self.direction, reported, &self.scale));
        ok!(put(sink, VariableName::DLeveltr, &self.start));
        from_first(self.orders.as_slice(), sink)
    }
}
