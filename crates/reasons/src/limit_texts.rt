//! What decides a limit, as a kind with its texts, a place, a speed and a number.
ghost use Rattle.std.specs.Prelude.{◌≡◌};
ghost use Rattle.reasons.specs.LimitTexts.{plain, restriction_reported, placed, over_reported, ahead_reported, limit_reported, limit_name_of, limit_sentence_of, limit_section_of};

use authority::Release;
use speed_supervision::{
    LimitCause, NationalValue, OverTrain, SpeedCause, TargetAhead, TargetKind,
};
use track_store::Restriction;
use units::{Cm, Mph};
use vars::Variable;

/// A kind of what decides a limit (this project's profile; docs/explain/brakes.md reports each).
#[derive(Clone, Copy)]
pub enum LimitKind {
    /// The mode lets no train run.
    NoSpeed,
    /// No train data are valid.
    NoTrainData,
    /// V_NVSTFF.
    StaffResponsible,
    /// V_NVSUPOVTRP.
    Override,
    /// V_NVSHUNT.
    Shunting,
    /// V_NVUNFIT.
    Unfitted,
    /// The train's greatest speed.
    Maximum,
    /// V_MAIN.
    Main,
    /// V_LOA, at the end of authority.
    End,
    /// A static speed over the train.
    StaticSpeed,
    /// A temporary speed restriction over the train.
    Restriction,
    /// A mode area over the train.
    Area,
    /// A static speed ahead.
    StaticSpeedAhead,
    /// A place ahead from which on no static speed is known.
    UnknownSpeedAhead,
    /// A temporary speed restriction ahead.
    RestrictionAhead,
    /// A mode area ahead.
    AreaAhead,
    /// The end of authority, ahead.
    EndOfAuthority,
    /// The supervised location, ahead: the danger point or the end of the overlap.
    SupervisedLocation,
    /// The release speed of the authority.
    Release,
    /// The national release speed, V_NVREL.
    NationalRelease,
}

/// What decides a limit, as it is reported.
#[derive(Clone, Copy)]
pub struct LimitReport {
    /// What it is.
    pub kind: LimitKind,
    /// Its speed, in metres per hour: that at the place, where one is ahead; else the limit.
    pub speed: Mph,
    /// Its place, or the first centimetre of what lies over the train.
    pub place: Option<i64>,
    /// The number of a restriction, NID_TSR.
    pub number: Option<u64>,
}

// The same without a place and a number.
fn plain(kind: LimitKind, speed: Mph) -> LimitReport
    ensures { result ≡ plain kind speed }
{
    LimitReport {
        kind,
        speed,
        place: None,
        number: None,
    }
}

fn restriction_reported(
    kind: LimitKind,
    speed: Mph,
    place: Cm,
    restriction: &Restriction,
) -> LimitReport
    ensures { result ≡ restriction_reported kind speed place restriction.now }
{
    LimitReport {
        kind,
        speed,
        place: Some(place.get()),
        number: Some(restriction.number.number()),
    }
}

fn placed(kind: LimitKind, speed: Mph, place: Cm) -> LimitReport
    ensures { result ≡ placed kind speed place }
{
    LimitReport {
        kind,
        speed,
        place: Some(place.get()),
        number: None,
    }
}

fn over_reported(limit: Mph, over: &OverTrain) -> LimitReport
    ensures { result ≡ over_reported limit over.now }
{
    match over {
        OverTrain::Maximum => plain(LimitKind::Maximum, limit),
        OverTrain::Main => plain(LimitKind::Main, limit),
        OverTrain::End => plain(LimitKind::End, limit),
        OverTrain::StaticSpeed(place) => placed(LimitKind::StaticSpeed, limit, *place),
        OverTrain::Restriction(speed_restriction) => restriction_reported(
            LimitKind::Restriction,
            limit,
            speed_restriction.start,
            speed_restriction,
        ),
        OverTrain::Area(area) => placed(LimitKind::Area, limit, area.start),
    }
}

fn ahead_reported(ahead: &TargetAhead) -> LimitReport
    ensures { result ≡ ahead_reported ahead.now }
{
    let place = ahead.target.place;
    let speed = ahead.target.speed;
    match &ahead.kind {
        TargetKind::StaticSpeed => placed(LimitKind::StaticSpeedAhead, speed, place),
        TargetKind::UnknownSpeed => placed(LimitKind::UnknownSpeedAhead, speed, place),
        TargetKind::Restriction(speed_restriction) => {
            restriction_reported(LimitKind::RestrictionAhead, speed, place, speed_restriction)
        }
        TargetKind::Area(_) => placed(LimitKind::AreaAhead, speed, place),
        TargetKind::EndOfAuthority => placed(LimitKind::EndOfAuthority, speed, place),
        TargetKind::SupervisedLocation => placed(LimitKind::SupervisedLocation, speed, place),
    }
}

/// What decides a limit, in metres per hour, as it is reported.
pub fn limit_reported(limit: Mph, cause: &LimitCause) -> LimitReport
    ensures { result ≡ limit_reported limit cause.now }
{
    match cause {
        LimitCause::NoSpeed => plain(LimitKind::NoSpeed, limit),
        LimitCause::NoTrainData => plain(LimitKind::NoTrainData, limit),
        LimitCause::National(NationalValue::StaffResponsible) => {
            plain(LimitKind::StaffResponsible, limit)
        }
        LimitCause::National(NationalValue::Override) => plain(LimitKind::Override, limit),
        LimitCause::National(NationalValue::Shunting) => plain(LimitKind::Shunting, limit),
        LimitCause::National(NationalValue::Unfitted) => plain(LimitKind::Unfitted, limit),
        LimitCause::Speed(SpeedCause::OverTrain(over)) => over_reported(limit, over),
        LimitCause::Speed(SpeedCause::Ahead(ahead)) => ahead_reported(ahead),
        LimitCause::Speed(SpeedCause::Release(Release::Speed(_))) => {
            plain(LimitKind::Release, limit)
        }
        LimitCause::Speed(SpeedCause::Release(Release::National)) => {
            plain(LimitKind::NationalRelease, limit)
        }
    }
}

/// The name of a kind in JSON.
pub fn limit_name(kind: LimitKind) -> &'static str
    ensures { result.now ≡ limit_name_of kind }
{
    match kind {
        LimitKind::NoSpeed => "no_speed",
        LimitKind::NoTrainData => "no_train_data",
        LimitKind::StaffResponsible => "national_staff_responsible",
        LimitKind::Override => "national_override",
        LimitKind::Shunting => "national_shunting",
        LimitKind::Unfitted => "national_unfitted",
        LimitKind::Maximum => "train_maximum",
        LimitKind::Main => "main_speed",
        LimitKind::End => "end_speed",
        LimitKind::StaticSpeed => "static_speed",
        LimitKind::Restriction => "restriction",
        LimitKind::Area => "mode_area",
        LimitKind::StaticSpeedAhead => "static_speed_ahead",
        LimitKind::UnknownSpeedAhead => "unknown_speed_ahead",
        LimitKind::RestrictionAhead => "restriction_ahead",
        LimitKind::AreaAhead => "mode_area_ahead",
        LimitKind::EndOfAuthority => "end_of_authority",
        LimitKind::SupervisedLocation => "supervised_location",
        LimitKind::Release => "release_speed",
        LimitKind::NationalRelease => "national_release_speed",
    }
}

/// What it says.
pub fn limit_sentence(kind: LimitKind) -> &'static str
    ensures { result.now ≡ limit_sentence_of kind }
{
    match kind {
        LimitKind::NoSpeed => "no train may run in this mode",
        LimitKind::NoTrainData => "no train data are valid",
        LimitKind::StaffResponsible => "the limit is the national value V_NVSTFF",
        LimitKind::Override =>
            "an override is active, and the limit is the national value V_NVSUPOVTRP",
        LimitKind::Shunting => "the limit is the national value V_NVSHUNT",
        LimitKind::Unfitted => "the limit is the national value V_NVUNFIT",
        LimitKind::Maximum => "the limit is the greatest speed of the train",
        LimitKind::Main => "the limit is V_MAIN of the authority",
        LimitKind::End => "the limit is V_LOA, the end of authority being reached",
        LimitKind::StaticSpeed => "the limit is the static speed over the train",
        LimitKind::Restriction =>
            "the limit is that of a temporary speed restriction over the train",
        LimitKind::Area => "the limit is that of a mode area over the train",
        LimitKind::StaticSpeedAhead => "the limit is that of a static speed ahead",
        LimitKind::UnknownSpeedAhead =>
            "the limit is that of a stop where no static speed is known",
        LimitKind::RestrictionAhead => "the limit is that of a temporary speed restriction ahead",
        LimitKind::AreaAhead => "the limit is that of a mode area ahead",
        LimitKind::EndOfAuthority => "the limit is that of the end of authority",
        LimitKind::SupervisedLocation => "the limit is that of the supervised location",
        LimitKind::Release => "the limit is the release speed of the authority",
        LimitKind::NationalRelease => "the limit is the national release speed V_NVREL",
    }
}

/// The sections of SUBSET-026 that it is from.
pub fn limit_section(kind: LimitKind) -> &'static str
    ensures { result.now ≡ limit_section_of kind }
{
    match kind {
        LimitKind::NoSpeed => "4.4",
        LimitKind::NoTrainData => "this project's profile",
        LimitKind::StaffResponsible => "3.11.7, 3.18.2",
        LimitKind::Override => "3.11.7, 3.18.2",
        LimitKind::Shunting => "3.11.7, 3.18.2",
        LimitKind::Unfitted => "3.11.7, 3.18.2",
        LimitKind::Maximum => "3.11.8",
        LimitKind::Main => "3.11.6",
        LimitKind::End => "3.8",
        LimitKind::StaticSpeed => "3.11.3",
        LimitKind::Restriction => "3.11.5",
        LimitKind::Area => "3.12.4",
        LimitKind::StaticSpeedAhead => "3.11.3, 3.13",
        LimitKind::UnknownSpeedAhead => "3.11.3, 3.13",
        LimitKind::RestrictionAhead => "3.11.5, 3.13",
        LimitKind::AreaAhead => "3.12.4, 3.13",
        LimitKind::EndOfAuthority => "3.8, 3.13",
        LimitKind::SupervisedLocation => "3.8, 3.13",
        LimitKind::Release => "3.8, 3.13",
        LimitKind::NationalRelease => "3.8, 3.13",
    }
}
