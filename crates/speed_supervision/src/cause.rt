//! What may decide a limit.
use areas::Area;
use authority::Release;
use braking::Target;
use track_store::Restriction;
use units::Cm;

/// What limits a train where it is (SUBSET-026, 3.11).
#[derive(Clone, Copy)]
pub enum OverTrain {
    /// The train's greatest speed.
    Maximum,
    /// The speed of the authority, V_MAIN.
    Main,
    /// The speed at the end of authority, V_LOA, the maximum safe front being there or beyond.
    End,
    /// The static speed of a centimetre that the train may cover (packet 27).
    StaticSpeed(Cm),
    /// A temporary speed restriction that the train may cover (packet 65).
    Restriction(Restriction),
    /// A mode area that the train's front may be in (packet 80).
    Area(Area),
}

/// Why a train must slow down or stop at a place (SUBSET-026, 3.8, 3.11 and 3.13).
#[derive(Clone, Copy)]
pub enum TargetKind {
    /// The static speed there (packet 27).
    StaticSpeed,
    /// No static speed is known there, before the end of authority: a stop.
    UnknownSpeed,
    /// A temporary speed restriction covers it (packet 65).
    Restriction(Restriction),
    /// It lies in a mode area (packet 80).
    Area(Area),
    /// It is the end of authority, and the speed there is V_LOA or 0.
    EndOfAuthority,
    /// It is the supervised location, the danger point or the end of the overlap: a stop.
    SupervisedLocation,
}

/// A place ahead at which the train must have slowed down or stopped, and why.
#[derive(Clone, Copy)]
pub struct TargetAhead {
    /// The place, and the greatest speed there.
    pub target: Target,
    /// What asks for it.
    pub kind: TargetKind,
}

/// What decides a permitted speed.
#[derive(Clone, Copy)]
pub enum SpeedCause {
    /// What limits the train where it is.
    OverTrain(OverTrain),
    /// What it must brake for.
    Ahead(TargetAhead),
    /// The release speed: of the authority, or the national value. The end of authority alone would allow less.
    Release(Release),
}

/// A national value that limits a train (SUBSET-026, 3.18.2).
#[derive(Clone, Copy)]
pub enum NationalValue {
    /// That of Staff Responsible, V_NVSTFF.
    StaffResponsible,
    /// That of an override, V_NVSUPOVTRP, while one is active.
    Override,
    /// That of Shunting, V_NVSHUNT.
    Shunting,
    /// That of Unfitted, V_NVUNFIT.
    Unfitted,
}

/// What decides the limit of a train.
#[derive(Clone, Copy)]
pub enum LimitCause {
    /// The mode lets no train run: Stand By, Trip, Post Trip or System Failure.
    NoSpeed,
    /// The train data aren't valid, in a mode that supervises by them.
    NoTrainData,
    /// A national value.
    National(NationalValue),
    /// The train, its authority, or what lies along the track.
    Speed(SpeedCause),
}
