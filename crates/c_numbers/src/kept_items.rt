//! What a block keeps, as C gets it.
ghost use Rattle.std.specs.Prelude.{◌≡◌};
ghost use Rattle.c_numbers.specs.Numbers.{or_zero, flag_of};
ghost use Rattle.c_numbers.specs.KeptItems.{status_number, level_reported, train_reported, group_reported, identity_reported, identity_bytes, DescribesKept};

use crate::national_items::{EtcsNational, national_reported};
use driver::{Datum, DriverIdentity, RunningNumber, TrainData};
use events::{Kept, Position};
use mode_table::TrainLevel;
use vars::Variable;

/// Train data, as C gets them.
#[repr(C)]
#[derive(Clone, Copy)]
pub struct EtcsTrain {
    /// In centimetres.
    pub length: u32,
    /// In metres per hour.
    pub maximum: u32,
    /// In cm/s^2.
    pub deceleration: u32,
    /// In milliseconds.
    pub reaction: u32,
    /// NC_TRAIN, 0 to 15.
    pub category: u32,
}

/// What is kept after the events of a block. What isn't known is zero.
#[repr(C)]
#[derive(Clone, Copy)]
pub struct EtcsKept {
    /// How far beyond the group the estimated front lies, in centimetres.
    pub distance: i64,
    /// The train data.
    pub train: EtcsTrain,
    /// The running number.
    pub running_number: u32,
    /// The country of the group that the position is reported by (NID_C).
    pub country: u32,
    /// The number of that group (NID_BG).
    pub group: u32,
    /// The driver's identity, and zeros after it.
    pub identity: [u8; 16],
    /// How many bytes the identity has, 0 where none is known.
    pub identity_len: u8,
    /// 1 where a running number is known.
    pub has_running_number: u8,
    /// 1 where train data are known.
    pub has_train: u8,
    /// The status of the level: 0 unknown, 1 valid, 2 invalid.
    pub level_status: u8,
    /// The level, 0 or 1.
    pub level: u8,
    /// The status of the position.
    pub position_status: u8,
    /// 1 where a trip isn't acknowledged yet.
    pub trip_outstanding: u8,
    /// 0.
    pub reserved: u8,
    /// The national values in force.
    pub national: EtcsNational,
}

/// The status of a datum.
pub fn status_number<T: Copy>(datum: &Datum<T>) -> u8
    ensures { result ≡ status_number datum.now }
{
    match datum {
        Datum::Unknown => 0,
        Datum::Valid(_) => 1,
        Datum::Invalid(_) => 2,
    }
}

fn level_reported(level: Datum<TrainLevel>) -> u8
    ensures { result ≡ level_reported level }
{
    match level {
        Datum::Unknown => 0,
        Datum::Valid(level) | Datum::Invalid(level) => level.number(),
    }
}

/// Train data, zeros where none are known.
pub fn train_reported(train: Option<TrainData>) -> EtcsTrain
    ensures { result ≡ train_reported train }
{
    match train {
        None => EtcsTrain {
            length: 0,
            maximum: 0,
            deceleration: 0,
            reaction: 0,
            category: 0,
        },
        Some(train) => EtcsTrain {
            length: train.length().get() as u32,
            maximum: train.maximum().get(),
            deceleration: u32::from(train.brakes().deceleration.get()),
            reaction: u32::from(train.brakes().reaction.get()),
            category: train.category().number() as u32,
        },
    }
}

/// A group, and how far it is.
#[derive(Clone, Copy)]
pub(crate) struct Group {
    pub(crate) country: u32,
    pub(crate) number: u32,
    pub(crate) distance: i64,
}

fn group_reported(position: Datum<Position>) -> Group
    ensures { result ≡ group_reported position }
{
    match position {
        Datum::Unknown => Group {
            country: 0,
            number: 0,
            distance: 0,
        },
        Datum::Valid(place) | Datum::Invalid(place) => Group {
            country: place.group().country.number() as u32,
            number: place.group().number.number() as u32,
            distance: place.distance().get(),
        },
    }
}

fn identity_reported(identity: &Option<DriverIdentity>) -> [u8; 16]
    ensures { result ≡ identity_reported identity.now }
{
    let mut all = [0; 16];
    if let Some(identity) = identity {
        let bytes = identity.bytes();
        all[..bytes.len()].copy_from_slice(bytes);
    }
    all
}

fn identity_bytes(identity: &Option<DriverIdentity>) -> u8
    ensures { result ≡ identity_bytes identity.now }
{
    match identity {
        Some(identity) => identity.bytes().len() as u8,
        None => 0,
    }
}

fn number_reported(number: Option<RunningNumber>) -> u32
    ensures { result ≡ or_zero number }
{
    match number {
        Some(number) => number.get(),
        None => 0,
    }
}

/// As C sees it.
pub fn kept_reported(kept: &Kept) -> EtcsKept
    ensures { DescribesKept kept.now result }
{
    let group = group_reported(kept.position);
    EtcsKept {
        distance: group.distance,
        train: train_reported(kept.train_data),
        running_number: number_reported(kept.running_number),
        country: group.country,
        group: group.number,
        identity: identity_reported(&kept.identity),
        identity_len: identity_bytes(&kept.identity),
        has_running_number: u8::from(kept.running_number.is_some()),
        has_train: u8::from(kept.train_data.is_some()),
        level_status: status_number(&kept.level),
        level: level_reported(kept.level),
        position_status: status_number(&kept.position),
        trip_outstanding: u8::from(kept.trip_outstanding),
        reserved: 0,
        national: national_reported(&kept.national),
    }
}
