//! Packet 5: the announced groups, read and handed to a sink (this project's profile).
ghost use Rattle.std.specs.Prelude.{◌≡◌, ◌+◌, ◌<◌, ◌≤◌, ◌^◌, length, OnOk, ◌↔◌, IsTrue};
ghost use Rattle.bits.specs.Fitting.{Fits};
ghost use Rattle.bits.specs.Layout.{Gives, kind, read};
ghost use Rattle.bits.specs.Writing.{size, taken};
ghost use Rattle.packets.specs.Layouts.{linking as linking_layout, linking_description};
ghost use Rattle.packets.specs.Packets.{as_packet, as_linking};
ghost use Rattle.packets.specs.declared.packet.Packet.TheVariants as packets;

use crate::element::{Element, read_from_first, read_qualified};
use crate::fault::PacketFault;
use crate::fitting::{from_first_fits, qualified_fits};
use crate::heads::{head_fits, put_head, read_head};
use crate::packet::Packet;
use crate::reading::field;
use crate::sink::{FieldSink, put};
use crate::walk::{from_first, from_first_bits, qualified};
use arrayvec::ArrayVec;
use bits::{BitReader, VariableName};
use vars::{
    Country, Distance, GroupNumber, LinkOrientation, LinkReaction, LocationAccuracy, PacketLength,
    Scale, ValidityDirection, Variable, has_number,
};

/// A group that packet 5 announces (SUBSET-026, 7.4.2; its layout: this project's profile).
#[derive(Clone, Copy)]
pub struct Link {
    /// D_LINK: from the group announced before, the first from this group.
    pub distance: Distance,
    /// NID_C, where it isn't the one before (Q_NEWCOUNTRY).
    pub country: Option<Country>,
    /// NID_BG.
    pub group: GroupNumber,
    /// Q_LINKORIENTATION.
    pub orientation: LinkOrientation,
    /// Q_LINKREACTION.
    pub reaction: LinkReaction,
    /// Q_LOCACC.
    pub accuracy: LocationAccuracy,
}

/// Fills unused elements.
impl Default for Link {
    fn default() -> Link {
        Link {
            distance: Distance::of_number(0).unwrap(),
            country: None,
            group: GroupNumber::of_number(0).unwrap(),
            orientation: LinkOrientation::Reverse,
            reaction: LinkReaction::Trip,
            accuracy: LocationAccuracy::of_number(0).unwrap(),
        }
    }
}

impl Element for Link {
    ghost use Rattle.packets.specs.Elements.{link};

    ghost layout = { link };

    #[tactic(auto, unfolding(crate::specs::Elements::link))]
    fn read(reader: &mut BitReader<'_>) -> Result<Link, PacketFault> {
        let distance = ok!(field(reader));
        let country = ok!(read_qualified(reader));
        let group = ok!(field(reader));
        let orientation = ok!(field(reader));
        let reaction = ok!(field(reader));
        let accuracy = ok!(field(reader));
        Ok(Link {
            distance,
            country,
            group,
            orientation,
            reaction,
            accuracy,
        })
    }

    #[tactic(auto, unfolding(crate::specs::Elements::link))]
    fn fields<S: FieldSink>(&self, sink: &mut S) -> Result<(), S::Error> {
        ok!(put(sink, VariableName::DLink, &self.distance));
        ok!(qualified(sink, VariableName::QNewcountry, &self.country));
        ok!(put(sink, VariableName::NidBg, &self.group));
        ok!(put(sink, VariableName::QLinkorientation, &self.orientation));
        ok!(put(sink, VariableName::QLinkreaction, &self.reaction));
        put(sink, VariableName::QLocacc, &self.accuracy)
    }

    #[tactic(auto, unfolding(crate::specs::Elements::link, crate::specs::Elements::country))]
    fn bits(&self) -> u64 {
        match &self.country {
            Some(_) => 49,
            None => 39,
        }
    }

    #[tactic(auto, unfolding(crate::specs::Elements::link))]
    fn fits(&self) -> bool {
        has_number(&self.distance)
            && qualified_fits(&self.country)
            && has_number(&self.group)
            && has_number(&self.orientation)
            && has_number(&self.reaction)
            && has_number(&self.accuracy)
    }
}

/// Packet 5: which groups come, and what follows where one doesn't (SUBSET-026, 7.4.2; its layout: this project's
/// profile).
#[derive(Drop)]
pub struct Linking {
    /// Q_DIR.
    pub direction: ValidityDirection,
    /// Q_SCALE.
    pub scale: Scale,
    /// The announced groups, the nearest first.
    pub links: ArrayVec<Link, 32>,
}

/// Reads packet 5 after its number, into the place of another packet; answers its L_PACKET, in bits. The error is the
/// first fault in the order of the bits.
#[tactic(auto, unfolding(crate::specs::Layouts::linking_description))]
pub(crate) fn read_linking<'a>(
    reader: &mut BitReader<'a>,
    out: &mut Packet<'a>,
) -> Result<PacketLength, PacketFault>
    ensures { Gives (λ reported. (reported, out.new)) result reader.new (read (kind (as_packet packets.Linking) as_linking linking_layout) reader.old) }
{
    let (direction, reported, scale) = ok!(read_head(reader));
    *out = Packet::Linking(Linking {
        direction,
        scale,
        links: ArrayVec::new(),
    });
    let Packet::Linking(Linking { links, .. }) = out else {
        return Err(PacketFault::OutOfRange);
    };
    ok!(read_from_first(reader, links));
    Ok(reported)
}

impl Linking {
    /// The number of bits, those of NID_PACKET included.
    #[tactic(auto, unfolding(crate::specs::Layouts::linking_description))]
    pub(crate) fn bits(&self) -> u64
        ensures value { result ≡ 8 + size (linking_description (λ _. 0)) self.now }
        ensures bound { result < 2 ^ 13 }
    {
        25 + from_first_bits(self.links.as_slice())
    }

    /// Whether it is as its layout wants it, but for its L_PACKET.
    #[tactic(auto, unfolding(crate::specs::Layouts::linking_description))]
    pub(crate) fn fits(&self) -> bool
        ensures { IsTrue result ↔ Fits (linking_description (λ _. 0)) self.now }
    {
        head_fits(&self.direction, &self.scale) && from_first_fits(self.links.as_slice())
    }

    /// Hands the fields after NID_PACKET to a sink, with its L_PACKET.
    #[tactic(auto, unfolding(crate::specs::Layouts::linking_description))]
    pub(crate) fn fields<S: FieldSink>(&self, reported: u64, sink: &mut S) -> Result<(), S::Error>
        requires reported { reported < 2 ^ 13 }
        requires space { S.held sink.old + size (linking_description (λ _. 0)) self.now ≤ S.most }
        ensures { OnOk result (S.seen sink.new ≡ taken S.took (linking_description (λ _. reported)) self.now (S.seen sink.old)) }
    {
        ok!(put_head(sink, &self.direction, reported, &self.scale));
        from_first(self.links.as_slice(), sink)
    }
}
