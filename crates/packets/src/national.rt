//! Packet 3: national values, from where on and in which countries they hold; read and handed to a sink.
ghost use Rattle.std.specs.Prelude.{◌≡◌, ◌+◌, ◌<◌, ◌≤◌, ◌^◌, length, OnOk, ◌↔◌, IsTrue};
ghost use Rattle.bits.specs.Fitting.{Fits};
ghost use Rattle.bits.specs.Layout.{Gives, kind, read};
ghost use Rattle.bits.specs.Writing.{size, taken};
ghost use Rattle.packets.specs.Layouts.{national_values, national_values_description};
ghost use Rattle.packets.specs.Packets.{as_packet, as_national_values};
ghost use Rattle.packets.specs.declared.packet.Packet.TheVariants as packets;

mod values;

use crate::element::{Element, read_list};
use crate::fault::PacketFault;
use crate::fitting::all_fit;
use crate::heads::{head_fits, put_head, read_head};
use crate::national::values::{read_mode_speeds, read_override_values};
use crate::packet::Packet;
use crate::reading::field;
use crate::sink::{FieldSink, put};
use crate::walk::{all, bits_of_all};
use arrayvec::ArrayVec;
use bits::{BitReader, VariableName};
use vars::{
    Country, Distance, Iterations, OpenLength, OverrideTime, PacketLength, Scale, SpeedStep,
    StartPlace, ValidityDirection, Variable, has_number,
};

impl Element for Country {
    ghost use Rattle.packets.specs.Elements.{country};

    ghost layout = { country };

    #[tactic(auto, unfolding(crate::specs::Elements::country))]
    fn read(reader: &mut BitReader<'_>) -> Result<Country, PacketFault> {
        field(reader)
    }

    #[tactic(auto, unfolding(crate::specs::Elements::country))]
    fn fields<S: FieldSink>(&self, sink: &mut S) -> Result<(), S::Error> {
        put(sink, VariableName::NidC, self)
    }

    #[tactic(auto, unfolding(crate::specs::Elements::country))]
    fn bits(&self) -> u64 {
        10
    }

    #[tactic(auto, unfolding(crate::specs::Elements::country))]
    fn fits(&self) -> bool {
        has_number(self)
    }
}

/// Packet 3, in this project's own order: national values and the countries that they are for (SUBSET-026, 7.4.2 and
/// 3.18.2; the order: this project's profile).
#[derive(Drop)]
pub struct NationalValues {
    /// Q_DIR.
    pub direction: ValidityDirection,
    /// Q_SCALE.
    pub scale: Scale,
    /// D_VALIDNV.
    pub start: StartPlace,
    /// The countries besides that of the group, at most 31.
    pub countries: ArrayVec<Country, 31>,
    /// V_NVSHUNT.
    pub shunting: SpeedStep,
    /// V_NVSTFF.
    pub staff_responsible: SpeedStep,
    /// V_NVONSIGHT.
    pub on_sight: SpeedStep,
    /// V_NVUNFIT.
    pub unfitted: SpeedStep,
    /// V_NVREL.
    pub release: SpeedStep,
    /// D_NVROLL.
    pub roll: Distance,
    /// V_NVALLOWOVTRP.
    pub override_allowed: SpeedStep,
    /// V_NVSUPOVTRP.
    pub override_speed: SpeedStep,
    /// D_NVOVTRP.
    pub override_distance: Distance,
    /// T_NVOVTRP.
    pub override_time: OverrideTime,
    /// D_NVSTFF.
    pub staff_responsible_distance: OpenLength,
}

/// Reads packet 3 after its number, into the place of another packet; answers its L_PACKET, in bits. The error is the
/// first fault in the order of the bits.
#[tactic(auto, unfolding(crate::specs::Layouts::national_values_description))]
pub(crate) fn read_national_values<'a>(
    reader: &mut BitReader<'a>,
    out: &mut Packet<'a>,
) -> Result<PacketLength, PacketFault>
    ensures { Gives (λ reported. (reported, out.new)) result reader.new (read (kind (as_packet packets.NationalValues) as_national_values national_values) reader.old) }
{
    let (direction, reported, scale) = ok!(read_head(reader));
    let start = ok!(field(reader));
    let count: Iterations = ok!(field(reader));
    let mut countries: ArrayVec<Country, 31> = ArrayVec::new();
    ok!(read_list(reader, &mut countries, count.count()));
    let speeds = ok!(read_mode_speeds(reader));
    let roll = ok!(field(reader));
    let changed = ok!(read_override_values(reader));
    let staff_responsible_distance = ok!(field(reader));
    *out = Packet::NationalValues(NationalValues {
        direction,
        scale,
        start,
        countries,
        shunting: speeds.shunting,
        staff_responsible: speeds.staff_responsible,
        on_sight: speeds.on_sight,
        unfitted: speeds.unfitted,
        release: speeds.release,
        roll,
        override_allowed: changed.allowed,
        override_speed: changed.speed,
        override_distance: changed.distance,
        override_time: changed.time,
        staff_responsible_distance,
    });
    Ok(reported)
}

impl NationalValues {
    /// The number of bits, those of NID_PACKET included.
    #[tactic(auto, unfolding(crate::specs::Layouts::national_values_description, crate::specs::Layouts::mode_speeds, crate::specs::Layouts::override_values))]
    pub(crate) fn bits(&self) -> u64
        ensures value { result ≡ 8 + size (national_values_description (λ _. 0)) self.now }
        ensures bound { result < 2 ^ 13 }
    {
        147 + bits_of_all(self.countries.as_slice())
    }

    /// Whether it is as its layout wants it, but for its L_PACKET.
    #[tactic(auto, unfolding(crate::specs::Layouts::national_values_description, crate::specs::Layouts::mode_speeds, crate::specs::Layouts::override_values), using(vars::proofs::Numbers::n_iter_has))]
    pub(crate) fn fits(&self) -> bool
        ensures { IsTrue result ↔ Fits (national_values_description (λ _. 0)) self.now }
    {
        head_fits(&self.direction, &self.scale)
            && has_number(&self.start)
            && all_fit(self.countries.as_slice())
            && self.mode_speeds_fit()
            && has_number(&self.roll)
            && self.override_values_fit()
            && has_number(&self.staff_responsible_distance)
    }

    /// Hands the fields after NID_PACKET to a sink, with its L_PACKET.
    #[tactic(auto, unfolding(crate::specs::Layouts::national_values_description, crate::specs::Layouts::mode_speeds, crate::specs::Layouts::override_values))]
    pub(crate) fn fields<S: FieldSink>(&self, reported: u64, sink: &mut S) -> Result<(), S::Error>
        requires reported { reported < 2 ^ 13 }
        requires space { S.held sink.old + size (national_values_description (λ _. 0)) self.now ≤ S.most }
        ensures { OnOk result (S.seen sink.new ≡ taken S.took (national_values_description (λ _. reported)) self.now (S.seen sink.old)) }
    {
        ok!(put_head(sink, &self.direction, reported, &self.scale));
        ok!(put(sink, VariableName::DValidnv, &self.start));
        ok!(sink.field(VariableName::NIter, 5, self.countries.len() as u64));
        ok!(all(&self.countries, sink));
        ok!(self.mode_speed_fields(sink));
        ok!(put(sink, VariableName::DNvroll, &self.roll));
        ok!(self.override_fields(sink));
        put(
            sink,
            VariableName::DNvstff,
            &self.staff_responsible_distance,
        )
    }
}
