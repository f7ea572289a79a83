//! The speeds of packet 3 by modes, and its values for an override.
ghost use Rattle.std.specs.Prelude.{◌≡◌, ◌+◌, ◌≤◌, OnOk, ◌↔◌, IsTrue};
ghost use Rattle.bits.specs.Fitting.{Fits};
ghost use Rattle.bits.specs.Layout.{Gives, read};
ghost use Rattle.bits.specs.Writing.{taken};
ghost use Rattle.packets.specs.Layouts.{mode_speeds, override_values};

use crate::fault::PacketFault;
use crate::national::NationalValues;
use crate::reading::field;
use crate::sink::{FieldSink, put};
use bits::{BitReader, VariableName};
use vars::{Distance, OverrideTime, SpeedStep, has_number};

/// The speeds of packet 3 by modes.
#[derive(Drop)]
pub(crate) struct ModeSpeeds {
    pub(crate) shunting: SpeedStep,
    pub(crate) staff_responsible: SpeedStep,
    pub(crate) on_sight: SpeedStep,
    pub(crate) unfitted: SpeedStep,
    pub(crate) release: SpeedStep,
}

/// The values of packet 3 for an override.
#[derive(Drop)]
pub(crate) struct OverrideValues {
    pub(crate) allowed: SpeedStep,
    pub(crate) speed: SpeedStep,
    pub(crate) distance: Distance,
    pub(crate) time: OverrideTime,
}

/// Reads the speeds.
#[tactic(auto, unfolding(crate::specs::Layouts::mode_speeds))]
pub(crate) fn read_mode_speeds(reader: &mut BitReader<'_>) -> Result<ModeSpeeds, PacketFault>
    ensures { Gives (λ x. x) result reader.new (read mode_speeds reader.old) }
{
    let shunting = ok!(field(reader));
    let staff_responsible = ok!(field(reader));
    let on_sight = ok!(field(reader));
    let unfitted = ok!(field(reader));
    let release = ok!(field(reader));
    Ok(ModeSpeeds {
        shunting,
        staff_responsible,
        on_sight,
        unfitted,
        release,
    })
}

/// Reads the values for an override.
#[tactic(auto, unfolding(crate::specs::Layouts::override_values))]
pub(crate) fn read_override_values(
    reader: &mut BitReader<'_>,
) -> Result<OverrideValues, PacketFault>
    ensures { Gives (λ x. x) result reader.new (read override_values reader.old) }
{
    let allowed = ok!(field(reader));
    let speed = ok!(field(reader));
    let distance = ok!(field(reader));
    let time = ok!(field(reader));
    Ok(OverrideValues {
        allowed,
        speed,
        distance,
        time,
    })
}

impl NationalValues {
    /// Whether the speeds of modes have numbers.
    #[tactic(auto, unfolding(crate::specs::Layouts::mode_speeds))]
    pub(crate) fn mode_speeds_fit(&self) -> bool
        ensures { IsTrue result ↔ Fits mode_speeds self.now }
    {
        has_number(&self.shunting)
            && has_number(&self.staff_responsible)
            && has_number(&self.on_sight)
            && has_number(&self.unfitted)
            && has_number(&self.release)
    }

    /// Whether the values of an override have numbers.
    #[tactic(auto, unfolding(crate::specs::Layouts::override_values))]
    pub(crate) fn override_values_fit(&self) -> bool
        ensures { IsTrue result ↔ Fits override_values self.now }
    {
        has_number(&self.override_allowed)
            && has_number(&self.override_speed)
            && has_number(&self.override_distance)
            && has_number(&self.override_time)
    }

    /// Hands the speeds to a sink.
    #[tactic(auto, unfolding(crate::specs::Layouts::mode_speeds))]
    pub(crate) fn mode_speed_fields<S: FieldSink>(&self, sink: &mut S) -> Result<(), S::Error>
        requires space { S.held sink.old + 35 ≤ S.most }
        ensures value { OnOk result (S.seen sink.new ≡ taken S.took mode_speeds self.now (S.seen sink.old)) }
        ensures held { OnOk result (S.held sink.new ≤ S.held sink.old + 35) }
    {
        ok!(put(sink, VariableName::VNvshunt, &self.shunting));
        ok!(put(sink, VariableName::VNvstff, &self.staff_responsible));
        ok!(put(sink, VariableName::VNvonsight, &self.on_sight));
        ok!(put(sink, VariableName::VNvunfit, &self.unfitted));
        put(sink, VariableName::VNvrel, &self.release)
    }

    /// Hands the values for an override to a sink.
    #[tactic(auto, unfolding(crate::specs::Layouts::override_values))]
    pub(crate) fn override_fields<S: FieldSink>(&self, sink: &mut S) -> Result<(), S::Error>
        requires space { S.held sink.old + 37 ≤ S.most }
        ensures value { OnOk result (S.seen sink.new ≡ taken S.took override_values self.now (S.seen sink.old)) }
        ensures held { OnOk result (S.held sink.new ≤ S.held sink.old + 37) }
    {
        ok!(put(sink, VariableName::VNvallowovtrp, &self.override_allowed));
        ok!(put(sink, VariableName::VNvsupovtrp, &self.override_speed));
        ok!(put(sink, VariableName::DNvovtrp, &self.override_distance));
        put(sink, VariableName::TNvovtrp, &self.override_time)
    }
}
