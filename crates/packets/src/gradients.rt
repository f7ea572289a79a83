//! Packet 21: gradients along the track, read and handed to a sink.
ghost use Rattle.std.specs.Prelude.{◌≡◌, ◌+◌, ◌<◌, ◌≤◌, ◌^◌, length, OnOk, ◌↔◌, IsTrue};
ghost use Rattle.bits.specs.Fitting.{Fits};
ghost use Rattle.bits.specs.Layout.{Gives, kind, read};
ghost use Rattle.bits.specs.Writing.{size, taken};
ghost use Rattle.packets.specs.Layouts.{gradients as gradients_layout, gradients_description};
ghost use Rattle.packets.specs.Packets.{as_packet, as_gradients};
ghost use Rattle.packets.specs.declared.packet.Packet.TheVariants as packets;

use crate::element::{Element, read_from_first};
use crate::fault::PacketFault;
use crate::fitting::from_first_fits;
use crate::heads::{head_fits, put_head, read_head};
use crate::packet::Packet;
use crate::reading::field;
use crate::sink::{FieldSink, put};
use crate::walk::{from_first, from_first_bits};
use arrayvec::ArrayVec;
use bits::{BitReader, VariableName};
use vars::{
    Distance, GradientDirection, PacketLength, Scale, Steepness, ValidityDirection, Variable,
    has_number,
};

/// A gradient from a place on (SUBSET-026, 7.4.2).
#[derive(Clone, Copy)]
pub struct Gradient {
    /// D_GRADIENT: from the place before, the first from the group.
    pub distance: Distance,
    /// Q_GDIR.
    pub direction: GradientDirection,
    /// G_A.
    pub steepness: Steepness,
}

/// Fills unused elements.
impl Default for Gradient {
    fn default() -> Gradient {
        Gradient {
            distance: Distance::of_number(0).unwrap(),
            direction: GradientDirection::Downhill,
            steepness: Steepness::of_number(0).unwrap(),
        }
    }
}

impl Element for Gradient {
    ghost use Rattle.packets.specs.Elements.{gradient};

    ghost layout = { gradient };

    #[tactic(auto, unfolding(crate::specs::Elements::gradient))]
    fn read(reader: &mut BitReader<'_>) -> Result<Gradient, PacketFault> {
        let distance = ok!(field(reader));
        let direction = ok!(field(reader));
        let steepness = ok!(field(reader));
        Ok(Gradient {
            distance,
            direction,
            steepness,
        })
    }

    #[tactic(auto, unfolding(crate::specs::Elements::gradient))]
    fn fields<S: FieldSink>(&self, sink: &mut S) -> Result<(), S::Error> {
        ok!(put(sink, VariableName::DGradient, &self.distance));
        ok!(put(sink, VariableName::QGdir, &self.direction));
        put(sink, VariableName::GA, &self.steepness)
    }

    #[tactic(auto, unfolding(crate::specs::Elements::gradient))]
    fn bits(&self) -> u64 {
        24
    }

    #[tactic(auto, unfolding(crate::specs::Elements::gradient))]
    fn fits(&self) -> bool {
        has_number(&self.distance) && has_number(&self.direction) && has_number(&self.steepness)
    }
}

/// Packet 21: the gradient profile.
#[derive(Drop)]
pub struct Gradients {
    /// Q_DIR.
    pub direction: ValidityDirection,
    /// Q_SCALE.
    pub scale: Scale,
    /// The gradients, the nearest first.
    pub gradients: ArrayVec<Gradient, 32>,
}

/// Reads packet 21 after its number, into the place of another packet; answers its L_PACKET, in bits. The error is the
/// first fault in the order of the bits.
#[tactic(auto, unfolding(crate::specs::Layouts::gradients_description))]
pub(crate) fn read_gradients<'a>(
    reader: &mut BitReader<'a>,
    out: &mut Packet<'a>,
) -> Result<PacketLength, PacketFault>
    ensures { Gives (λ reported. (reported, out.new)) result reader.new (read (kind (as_packet packets.Gradients) as_gradients gradients_layout) reader.old) }
{
    let (direction, reported, scale) = ok!(read_head(reader));
    *out = Packet::Gradients(Gradients {
        direction,
        scale,
        gradients: ArrayVec::new(),
    });
    let Packet::Gradients(Gradients { gradients, .. }) = out else {
        return Err(PacketFault::OutOfRange);
    };
    ok!(read_from_first(reader, gradients));
    Ok(reported)
}

impl Gradients {
    /// The number of bits, those of NID_PACKET included.
    #[tactic(auto, unfolding(crate::specs::Layouts::gradients_description))]
    pub(crate) fn bits(&self) -> u64
        ensures value { result ≡ 8 + size (gradients_description (λ _. 0)) self.now }
        ensures bound { result < 2 ^ 13 }
    {
        25 + from_first_bits(self.gradients.as_slice())
    }

    /// Whether it is as its layout wants it, but for its L_PACKET.
    #[tactic(auto, unfolding(crate::specs::Layouts::gradients_description))]
    pub(crate) fn fits(&self) -> bool
        ensures { IsTrue result ↔ Fits (gradients_description (λ _. 0)) self.now }
    {
        head_fits(&self.direction, &self.scale) && from_first_fits(self.gradients.as_slice())
    }

    /// Hands the fields after NID_PACKET to a sink, with its L_PACKET.
    #[tactic(auto, unfolding(crate::specs::Layouts::gradients_description))]
    pub(crate) fn fields<S: FieldSink>(&self, reported: u64, sink: &mut S) -> Result<(), S::Error>
        requires reported { reported < 2 ^ 13 }
        requires space { S.held sink.old + size (gradients_description (λ _. 0)) self.now ≤ S.most }
        ensures { OnOk result (S.seen sink.new ≡ taken S.took (gradients_description (λ _. reported)) self.now (S.seen sink.old)) }
    {
        ok!(put_head(sink, &self.direction, reported, &self.scale));
        from_first(self.gradients.as_slice(), sink)
    }
}
