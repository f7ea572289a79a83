//! Packet 27: static speeds along the track, and those for categories of trains.
ghost use Rattle.std.specs.Prelude.{◌≡◌, ◌+◌, ◌≤◌, ◌<◌, ◌^◌, length, min, OnOk, ◌↔◌, IsTrue};
ghost use Rattle.bits.specs.Sums.{total};
ghost use Rattle.bits.specs.Writing.{size, taken};
ghost use Rattle.packets.specs.Layouts.{static_speeds_description};
ghost use Rattle.packets.specs.StaticSteps.{StepFits, SpeedsFit};
ghost use Rattle.std.specs.List.{AllByRecursion as Each};

mod handing;
mod reading;

use crate::element::Element;
use crate::fault::PacketFault;
use crate::fitting::all_fit;
use crate::heads::put_head;
use crate::reading::field;
use crate::sink::{FieldSink, put};
use crate::static_speeds::handing::profile_fields;
pub(crate) use crate::static_speeds::reading::read_static_speeds;
use arrayvec::ArrayVec;
use bits::{BitReader, VariableName};
use vars::{
    Distance, Iterations, Scale, SpeedStep, StaticSpeed, TrainCategory, TrainLengthDelay,
    ValidityDirection, Variable, has_number,
};

/// A speed for trains of a category (SUBSET-026, 7.4.2).
#[derive(Clone, Copy)]
pub struct Difference {
    /// NC_DIFF.
    pub category: TrainCategory,
    /// V_DIFF.
    pub speed: SpeedStep,
}

/// Fills unused elements.
impl Default for Difference {
    fn default() -> Difference {
        Difference {
            category: TrainCategory::of_number(0).unwrap(),
            speed: SpeedStep::of_number(0).unwrap(),
        }
    }
}

impl Element for Difference {
    ghost use Rattle.packets.specs.Elements.{difference};

    ghost layout = { difference };

    #[tactic(auto, unfolding(crate::specs::Elements::difference))]
    fn read(reader: &mut BitReader<'_>) -> Result<Difference, PacketFault> {
        let category = ok!(field(reader));
        let speed = ok!(field(reader));
        Ok(Difference { category, speed })
    }

    #[tactic(auto, unfolding(crate::specs::Elements::difference))]
    fn fields<S: FieldSink>(&self, sink: &mut S) -> Result<(), S::Error> {
        ok!(put(sink, VariableName::NcDiff, &self.category));
        put(sink, VariableName::VDiff, &self.speed)
    }

    #[tactic(auto, unfolding(crate::specs::Elements::difference))]
    fn bits(&self) -> u64 {
        11
    }

    #[tactic(auto, unfolding(crate::specs::Elements::difference))]
    fn fits(&self) -> bool {
        has_number(&self.category) && has_number(&self.speed)
    }
}

/// A static speed from a place on (SUBSET-026, 7.4.2).
#[derive(Clone, Copy)]
pub struct StaticStep {
    /// D_STATIC: from the place before, the first from the group.
    pub distance: Distance,
    /// V_STATIC.
    pub speed: StaticSpeed,
    /// Q_FRONT.
    pub delay: TrainLengthDelay,
    /// N_ITER: how many of the packet's differences are its own, after those of the elements before it.
    pub differences: Iterations,
}

/// Fills unused elements.
impl Default for StaticStep {
    ghost use Rattle.packets.specs.Layouts.{unused_step};

    ghost is_default = { λ s. s ≡ unused_step };

    fn default() -> StaticStep {
        StaticStep {
            distance: Distance::of_number(0).unwrap(),
            speed: StaticSpeed::Speed(SpeedStep::of_number(0).unwrap()),
            delay: TrainLengthDelay::Applied,
            differences: Iterations::of_number(0).unwrap(),
        }
    }
}

/// Packet 27: the static speed profile.
#[derive(Drop)]
pub struct StaticSpeeds {
    /// Q_DIR.
    pub direction: ValidityDirection,
    /// Q_SCALE.
    pub scale: Scale,
    /// The speeds, the nearest first.
    pub steps: ArrayVec<StaticStep, 32>,
    /// The speeds for categories of trains, those of the first step first, at most 70.
    pub differences: ArrayVec<Difference, 70>,
}

/// How many differences the steps count.
fn counted_differences(steps: &[StaticStep]) -> u64
    requires { length steps.now ≤ 32 }
    ensures { result ≡ total (λ (s : StaticStep). s.differences) steps.now }
{
    let mut counted = 0u64;
    for step in steps {
        counted += u64::from(step.differences.count());
    }
    counted
}

/// How many differences are some step's own.
fn owned_differences(steps: &[StaticStep], differences: usize) -> u64
    requires few { length steps.now ≤ 32 }
    requires small { differences ≤ 70 }
    ensures { result ≡ min (total (λ (s : StaticStep). s.differences) steps.now) differences }
{
    if differences == 0 {
        return 0;
    }
    counted_differences(steps).min(differences as u64)
}

impl StaticStep {
    /// Whether its variables have numbers.
    fn has_numbers(&self) -> bool
        ensures { IsTrue result ↔ StepFits self.now }
    {
        has_number(&self.distance)
            && has_number(&self.speed)
            && has_number(&self.delay)
            && has_number(&self.differences)
    }
}

/// Whether the variables of all steps have numbers.
fn steps_fit(steps: &[StaticStep]) -> bool
    ensures { IsTrue result ↔ Each StepFits steps.now }
{
    for step in steps {
        if !step.has_numbers() {
            return false;
        }
    }
    true
}

impl StaticSpeeds {
    /// Whether there is a first step, and the steps count the differences that there are.
    fn counts_differences(&self) -> bool
        ensures { IsTrue result ↔ ((0 < length self.now.steps.items) × (length self.now.steps.items ≤ 32) × (length self.now.differences.items ≤ 70) × (total (λ (s : StaticStep). s.differences) self.now.steps.items ≡ length self.now.differences.items)) }
    {
        let steps = self.steps.as_slice();
        let differences = self.differences.len() as u64;
        steps.len() > 0 && counted_differences(steps) == differences
    }

    /// Whether it is as its layout wants it, but for its L_PACKET.
    pub(crate) fn fits(&self) -> bool
        ensures { IsTrue result ↔ SpeedsFit self.now }
    {
        self.counts_differences()
            && has_number(&self.direction)
            && has_number(&self.scale)
            && steps_fit(self.steps.as_slice())
            && all_fit(self.differences.as_slice())
    }

    /// The number of bits, those of NID_PACKET included.
    pub(crate) fn bits(&self) -> u64
        ensures value { result ≡ 8 + size (static_speeds_description (λ _. 0)) self.now }
        ensures bound { result < 2 ^ 13 }
    {
        let steps = self.steps.as_slice();
        30 + 28 * (steps.len() as u64).max(1)
            + 11 * owned_differences(steps, self.differences.len())
    }

    /// Hands the fields after NID_PACKET to a sink, with its L_PACKET.
    #[tactic(auto, using(crate::proofs::StaticSteps::speeds_size))]
    pub(crate) fn fields<S: FieldSink>(&self, reported: u64, sink: &mut S) -> Result<(), S::Error>
        requires reported { reported < 2 ^ 13 }
        requires space { S.held sink.old + size (static_speeds_description (λ _. 0)) self.now ≤ S.most }
        ensures { OnOk result (S.seen sink.new ≡ taken S.took (static_speeds_description (λ _. reported)) self.now (S.seen sink.old)) }
    {
        ok!(put_head(sink, &self.direction, reported, &self.scale));
        ok!(profile_fields(self.steps.as_slice(), self.differences.as_slice(), sink));
        Ok(())
    }
}
