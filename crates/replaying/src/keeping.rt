//! What a head says about what is kept, along with what the kernel keeps.
ghost use Rattle.std.specs.Prelude.{◌≡◌, ◌↔◌, IsTrue, MatchOption};
ghost use Rattle.replaying.specs.Comparing.{SameEntered, EnteredDiffers, FoundDiffers, KeptDiffersIn};

use crate::differences::KeptField;
use driver::{Datum, DriverIdentity, RunningNumber, TrainData};
use events::{Kept, Position};
use mode_table::TrainLevel;
use national::Values;
use vars::{Country, Variable};

fn same_identity(one: &Option<DriverIdentity>, other: &Option<DriverIdentity>) -> bool
    ensures { IsTrue result ↔ one.now ≡ other.now }
{
    match (one, other) {
        (None, None) => true,
        (Some(one), Some(other)) => one.bytes() == other.bytes(),
        _ => false,
    }
}

fn same_running_number(one: Option<RunningNumber>, other: Option<RunningNumber>) -> bool
    ensures { IsTrue result ↔ one ≡ other }
{
    match (one, other) {
        (None, None) => true,
        (Some(one), Some(other)) => one.get() == other.get(),
        _ => false,
    }
}

fn same_train(one: &TrainData, other: &TrainData) -> bool
    ensures { IsTrue result ↔ one.now ≡ other.now }
{
    one.length() == other.length()
        && one.maximum() == other.maximum()
        && one.category().number() == other.category().number()
        && one.brakes().deceleration == other.brakes().deceleration
        && one.brakes().reaction == other.brakes().reaction
}

fn same_train_data(one: &Option<TrainData>, other: &Option<TrainData>) -> bool
    ensures { IsTrue result ↔ one.now ≡ other.now }
{
    match (one, other) {
        (None, None) => true,
        (Some(one), Some(other)) => same_train(one, other),
        _ => false,
    }
}

fn same_level(one: TrainLevel, other: TrainLevel) -> bool
    ensures { IsTrue result ↔ one ≡ other }
{
    match (one, other) {
        (TrainLevel::Level0, TrainLevel::Level0) => true,
        (TrainLevel::Level1, TrainLevel::Level1) => true,
        _ => false,
    }
}

fn same_level_item(one: Datum<TrainLevel>, other: Datum<TrainLevel>) -> bool
    ensures { IsTrue result ↔ one ≡ other }
{
    match (one, other) {
        (Datum::Unknown, Datum::Unknown) => true,
        (Datum::Valid(one), Datum::Valid(other)) => same_level(one, other),
        (Datum::Invalid(one), Datum::Invalid(other)) => same_level(one, other),
        _ => false,
    }
}

fn same_position(one: Position, other: Position) -> bool
    ensures { IsTrue result ↔ one ≡ other }
{
    one.group() == other.group() && one.distance() == other.distance()
}

fn same_position_item(one: Datum<Position>, other: Datum<Position>) -> bool
    ensures { IsTrue result ↔ one ≡ other }
{
    match (one, other) {
        (Datum::Unknown, Datum::Unknown) => true,
        (Datum::Valid(one), Datum::Valid(other)) => same_position(one, other),
        (Datum::Invalid(one), Datum::Invalid(other)) => same_position(one, other),
        _ => false,
    }
}

fn same_values(one: &Values, other: &Values) -> bool
    ensures { IsTrue result ↔ one.now ≡ other.now }
{
    *one == *other
}

fn same_countries(one: &[Country], other: &[Country]) -> bool
    ensures { IsTrue result ↔ one.now ≡ other.now }
{
    one == other
}

// Of driver and train.
fn entered_differs(reported: &Kept, kept: &Kept) -> Option<KeptField>
    ensures { MatchOption result (SameEntered reported.now kept.now) (λ field. EnteredDiffers field reported.now kept.now) }
{
    if !same_identity(&reported.identity, &kept.identity) {
        return Some(KeptField::Identity);
    }
    if !same_running_number(reported.running_number, kept.running_number) {
        return Some(KeptField::RunningNumber);
    }
    if !same_train_data(&reported.train_data, &kept.train_data) {
        return Some(KeptField::TrainData);
    }
    None
}

// Of the track.
fn found_differs(reported: &Kept, kept: &Kept) -> Option<KeptField>
    ensures { MatchOption result ((reported.now.level ≡ kept.now.level) × (reported.now.position ≡ kept.now.position) × (reported.now.national ≡ kept.now.national))
        (λ field. FoundDiffers field reported.now kept.now) }
{
    if !same_level_item(reported.level, kept.level) {
        return Some(KeptField::Level);
    }
    if !same_position_item(reported.position, kept.position) {
        return Some(KeptField::Position);
    }
    if !same_values(reported.national.values(), kept.national.values()) {
        return Some(KeptField::NationalValues);
    }
    if !same_countries(reported.national.countries(), kept.national.countries()) {
        return Some(KeptField::Countries);
    }
    None
}

/// The first field in which what a head says differs from what is kept; None exactly where it is that.
pub(crate) fn kept_differs(reported: &Kept, kept: &Kept) -> Option<KeptField>
    ensures { MatchOption result (reported.now ≡ kept.now) (λ field. KeptDiffersIn field reported.now kept.now) }
{
    if reported.events != kept.events {
        return Some(KeptField::Events);
    }
    if reported.lives != kept.lives {
        return Some(KeptField::Lives);
    }
    if reported.trip_outstanding != kept.trip_outstanding {
        return Some(KeptField::Trip);
    }
    if let Some(field) = entered_differs(reported, kept) {
        return Some(field);
    }
    found_differs(reported, kept)
}
