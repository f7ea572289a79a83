//! What packets 21 and 27 mean on the track.
ghost use Rattle.std.specs.Prelude.{◌≡◌, min, length, take, drop};
ghost use Rattle.speed_profile.specs.Reported.{speed_of, speed_for, speeds_for, first_place, gradient_value, gradient_fact, speed_value, speed_fact};

use crate::ShortSpeed;
use arrayvec::ArrayVec;
use packets::{Difference, Gradient, Gradients, StaticSpeeds, StaticStep};
use track_store::{Same, Step};
use units::{Cm, GroupPlace, Mph, Permille};
use vars::{StaticSpeed, TrainCategory, TrainLengthDelay, Variable};

/// A static speed, with what holds for each category of trains (SUBSET-026, 3.11.3; 7.4.2, packet 27).
#[derive(Clone, Copy, PartialEq, Eq)]
pub struct CategorySpeeds {
    /// The speed for each category (NC_DIFF) from 0 to 15, in metres per hour.
    pub speeds: [ShortSpeed; 16],
    /// Q_FRONT.
    pub delay: TrainLengthDelay,
}

impl CategorySpeeds {
    /// The speed for trains of a category, in metres per hour.
    pub fn for_category(&self, category: TrainCategory) -> Mph
        ensures { result ≡ speed_of self.now category }
    {
        self.speeds[category.number() as usize].get()
    }
}

impl Same for CategorySpeeds {
    fn is_same(&self, other: &CategorySpeeds) -> bool {
        self == other
    }
}

/// A profile as one packet gives it (SUBSET-026, 7.4.2, packets 21 and 27).
#[derive(Drop)]
pub struct ProfileReport<T> {
    /// Its first place, in centimetres.
    pub start: Cm,
    /// The values, the nearest first.
    pub steps: ArrayVec<Step<T>, 32>,
}

/// The gradients of a packet 21 (SUBSET-026, 7.4.2), in per mille, uphill positive; a steepness of 255 is an end
/// mark. Its first distance counts from a place.
pub fn gradients(packet: &Gradients, place: GroupPlace) -> ProfileReport<Permille>
    ensures start { result.start ≡ (gradient_fact place packet.now).start }
    ensures steps { result.steps.items ≡ (gradient_fact place packet.now).steps }
{
    let mut steps: ArrayVec<Step<Permille>, 32> = ArrayVec::new();
    let origin = place.to_cm();
    let mut at = origin;
    for gradient in packet.gradients.as_slice() {
        at = at.ahead(gradient.distance.in_scale(packet.scale));
        steps.push(Step {
            place: at,
            value: gradient_value(gradient),
        });
    }
    let start = first_place(origin, steps.as_slice());
    ProfileReport { start, steps }
}

/// The static speeds of a packet 27 (SUBSET-026, 7.4.2); a V_STATIC of 127 is an end mark. Its first distance
/// counts from a place.
pub fn static_speeds(packet: &StaticSpeeds, place: GroupPlace) -> ProfileReport<CategorySpeeds>
    ensures start { result.start ≡ (speed_fact place packet.now).start }
    ensures steps { result.steps.items ≡ (speed_fact place packet.now).steps }
{
    let mut steps: ArrayVec<Step<CategorySpeeds>, 32> = ArrayVec::new();
    let origin = place.to_cm();
    let mut at = origin;
    let mut left = packet.differences.as_slice();
    for step in packet.steps.as_slice() {
        at = at.ahead(step.distance.in_scale(packet.scale));
        steps.push(Step {
            place: at,
            value: speed_value(step, own_part(step, left)),
        });
        left = others_part(step, left);
    }
    let start = first_place(origin, steps.as_slice());
    ProfileReport { start, steps }
}

// The place of the first step; without one, another place.
fn first_place<T>(place: Cm, steps: &[Step<T>]) -> Cm
    ensures { result ≡ first_place place steps.now }
{
    match steps.first() {
        Some(step) => step.place,
        None => place,
    }
}

// The gradient of an element; None where it ends the profile.
fn gradient_value(element: &Gradient) -> Option<Permille>
    ensures { result ≡ gradient_value element.now }
{
    element.steepness.gradient(element.direction)
}

// The static speed of an element with its own differences; None where it ends the profile.
fn speed_value(element: &StaticStep, differences: &[Difference]) -> Option<CategorySpeeds>
    ensures { result ≡ speed_value element.now differences.now }
{
    match element.speed {
        StaticSpeed::End => None,
        StaticSpeed::Speed(step) => Some(CategorySpeeds {
            speeds: speeds_for(ShortSpeed::of_step(step), differences),
            delay: element.delay,
        }),
    }
}

// The speeds for the categories from 0 to 15.
fn speeds_for(basic: ShortSpeed, differences: &[Difference]) -> [ShortSpeed; 16]
    ensures { result ≡ speeds_for basic differences.now }
{
    let mut speeds = [basic; 16];
    for category in 0..16 {
        speeds[category] = speed_for(basic, differences, category as u64);
    }
    speeds
}

// The speed for a category: that of its first difference, else the basic one.
fn speed_for(basic: ShortSpeed, differences: &[Difference], category: u64) -> ShortSpeed
    ensures { result ≡ speed_for basic differences.now category }
{
    for difference in differences {
        if category != NO_CATEGORY && difference.category.number() == category {
            return ShortSpeed::of_step(difference.speed);
        }
    }
    basic
}

// NC_DIFF 15 means no category.
const NO_CATEGORY: u64 = 15;

// An element's own differences, of those that are left.
fn own_part<'a>(element: &StaticStep, left: &'a [Difference]) -> &'a [Difference]
    ensures { result.now ≡ take element.now.differences left.now }
{
    &left[..own_count(element, left)]
}

// The differences after an element's own.
fn others_part<'a>(element: &StaticStep, left: &'a [Difference]) -> &'a [Difference]
    ensures { result.now ≡ drop element.now.differences left.now }
{
    &left[own_count(element, left)..]
}

// The number of an element's own differences, of those that are left.
fn own_count(element: &StaticStep, left: &[Difference]) -> usize
    ensures value { result ≡ min element.now.differences (length left.now) }
{
    usize::from(element.differences.count()).min(left.len())
}
