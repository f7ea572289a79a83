//! The layouts of packets after L_PACKET, as SUBSET-026, 7.4.2 has them in issue 2.3.0: a row a variable. How sure each
//! is stands in `docs/reference/packets.md`.
ghost use Rattle.std.specs.Prelude.{◌≡◌};
ghost use Rattle.track_packets.specs.Layouts.{rows_of as rows_reported};

use crate::row::{Role, Row, When};
use crate::variable::Variable;
use bits::VariableName;

macro_rules! row {
    (shared $name:ident, $depth:expr, $role:ident, $when:ident) => {
        row!(Variable::Shared(VariableName::$name), $depth, Role::$role, When::$when)
    };
    (shared $name:ident, $depth:expr, $role:ident, $when:ident($number:expr)) => {
        row!(Variable::Shared(VariableName::$name), $depth, Role::$role, When::$when($number))
    };
    (own $name:ident, $depth:expr, $role:ident, $when:ident) => {
        row!(Variable::$name, $depth, Role::$role, When::$when)
    };
    (own $name:ident, $depth:expr, $role:ident, $when:ident($number:expr)) => {
        row!(Variable::$name, $depth, Role::$role, When::$when($number))
    };
    ($variable:expr, $depth:expr, $role:expr, $when:expr) => {
        Row {
            variable: $variable,
            depth: $depth,
            role: $role,
            when: $when,
        }
    };
}

/// The rows that each packet begins with; NID_PACKET 255 stands alone.
pub const HEAD: [Row; 3] = [
    row!(shared NidPacket, 0, Plain, Always),
    row!(shared QDir, 0, Plain, Always),
    row!(shared LPacket, 0, Plain, Always),
];

/// The rows of packet 3.
pub const NATIONAL_VALUES: [Row; 22] = [
    row!(shared QScale, 0, Plain, Always),
    row!(shared DValidnv, 0, Plain, Always),
    row!(shared NIter, 0, Counter, Always),
    row!(shared NidC, 1, Plain, Always),
    row!(shared VNvshunt, 0, Plain, Always),
    row!(shared VNvstff, 0, Plain, Always),
    row!(shared VNvonsight, 0, Plain, Always),
    row!(shared VNvunfit, 0, Plain, Always),
    row!(shared VNvrel, 0, Plain, Always),
    row!(shared DNvroll, 0, Plain, Always),
    row!(own QNvsrbktrg, 0, Plain, Always),
    row!(own QNvemrrls, 0, Plain, Always),
    row!(shared VNvallowovtrp, 0, Plain, Always),
    row!(shared VNvsupovtrp, 0, Plain, Always),
    row!(shared DNvovtrp, 0, Plain, Always),
    row!(shared TNvovtrp, 0, Plain, Always),
    row!(own DNvpotrp, 0, Plain, Always),
    row!(own MNvcontact, 0, Plain, Always),
    row!(own TNvcontact, 0, Plain, Always),
    row!(own MNvderun, 0, Plain, Always),
    row!(shared DNvstff, 0, Plain, Always),
    row!(own QNvdriverAdhes, 0, Plain, Always),
];

/// The rows of packet 16.
pub const REPOSITIONING: [Row; 2] = [
    row!(shared QScale, 0, Plain, Always),
    row!(shared LSection, 0, Plain, Always),
];

/// The rows of packet 39.
pub const TRACTION_CHANGE: [Row; 3] = [
    row!(shared QScale, 0, Plain, Always),
    row!(own DTraction, 0, Plain, Always),
    row!(own MTraction, 0, Plain, Always),
];

/// The rows of packet 42.
pub const SESSION_MANAGEMENT: [Row; 5] = [
    row!(own QRbc, 0, Plain, Always),
    row!(shared NidC, 0, Plain, Always),
    row!(own NidRbc, 0, Plain, Always),
    row!(own NidRadio, 0, Plain, Always),
    row!(own QSleepsession, 0, Plain, Always),
];

/// The rows of packet 44.
pub const OTHER_APPLICATION: [Row; 1] = [row!(own NidXuser, 0, Plain, Always)];

/// The rows of packet 45.
pub const NETWORK_REGISTRATION: [Row; 1] = [row!(own NidMn, 0, Plain, Always)];

/// The rows of packet 46.
pub const CONDITIONAL_LEVELS: [Row; 5] = [
    row!(shared MLeveltr, 0, Qualifier, Always),
    row!(shared NidStm, 0, Plain, Qualifier(1)),
    row!(shared NIter, 0, Counter, Always),
    row!(shared MLeveltr, 1, Qualifier, Always),
    row!(shared NidStm, 1, Plain, Qualifier(1)),
];

/// The rows of packet 49 and packet 63.
pub const LISTED_GROUPS: [Row; 4] = [
    row!(shared NIter, 0, Counter, Always),
    row!(shared QNewcountry, 1, Qualifier, Always),
    row!(shared NidC, 1, Plain, Qualifier(1)),
    row!(shared NidBg, 1, Plain, Always),
];

/// The rows of packet 51.
pub const AXLE_LOAD_SPEEDS: [Row; 16] = [
    row!(shared QScale, 0, Plain, Always),
    row!(own QTrackinit, 0, Gate, Always),
    row!(own DTrackinit, 0, Plain, Gate(1)),
    row!(own DAxleload, 0, Plain, Gate(0)),
    row!(own LAxleload, 0, Plain, Gate(0)),
    row!(shared QFront, 0, Plain, Gate(0)),
    row!(shared NIter, 0, Counter, Gate(0)),
    row!(own MAxleload, 1, Plain, Always),
    row!(own VAxleload, 1, Plain, Always),
    row!(shared NIter, 0, Counter, Gate(0)),
    row!(own DAxleload, 1, Plain, Always),
    row!(own LAxleload, 1, Plain, Always),
    row!(shared QFront, 1, Plain, Always),
    row!(shared NIter, 1, Counter, Always),
    row!(own MAxleload, 2, Plain, Always),
    row!(own VAxleload, 2, Plain, Always),
];

/// The rows of packet 57.
pub const AUTHORITY_REQUESTS: [Row; 3] = [
    row!(own TMar, 0, Plain, Always),
    row!(own TTimeoutrqst, 0, Plain, Always),
    row!(own TCycrqst, 0, Plain, Always),
];

/// The rows of packet 58.
pub const POSITION_REPORTS: [Row; 7] = [
    row!(shared QScale, 0, Plain, Always),
    row!(own TCycloc, 0, Plain, Always),
    row!(own DCycloc, 0, Plain, Always),
    row!(own MLoc, 0, Plain, Always),
    row!(shared NIter, 0, Counter, Always),
    row!(own DLoc, 1, Plain, Always),
    row!(own QLgtloc, 1, Plain, Always),
];

/// The rows of packet 67.
pub const BIG_METAL_MASSES: [Row; 6] = [
    row!(shared QScale, 0, Plain, Always),
    row!(own DTrackcond, 0, Plain, Always),
    row!(own LTrackcond, 0, Plain, Always),
    row!(shared NIter, 0, Counter, Always),
    row!(own DTrackcond, 1, Plain, Always),
    row!(own LTrackcond, 1, Plain, Always),
];

/// The rows of packet 68.
pub const TRACK_CONDITIONS: [Row; 10] = [
    row!(shared QScale, 0, Plain, Always),
    row!(own QTrackinit, 0, Gate, Always),
    row!(own DTrackinit, 0, Plain, Gate(1)),
    row!(own DTrackcond, 0, Plain, Gate(0)),
    row!(own LTrackcond, 0, Plain, Gate(0)),
    row!(own MTrackcond, 0, Plain, Gate(0)),
    row!(shared NIter, 0, Counter, Gate(0)),
    row!(own DTrackcond, 1, Plain, Always),
    row!(own LTrackcond, 1, Plain, Always),
    row!(own MTrackcond, 1, Plain, Always),
];

/// The rows of packet 70.
pub const ROUTE_SUITABILITY: [Row; 14] = [
    row!(shared QScale, 0, Plain, Always),
    row!(own QTrackinit, 0, Gate, Always),
    row!(own DTrackinit, 0, Plain, Gate(1)),
    row!(own DSuitability, 0, Plain, Gate(0)),
    row!(own QSuitability, 0, Qualifier, Gate(0)),
    row!(own MLoadinggauge, 0, Plain, Qualifier(0)),
    row!(own MAxleload, 0, Plain, Qualifier(1)),
    row!(own MTraction, 0, Plain, Qualifier(2)),
    row!(shared NIter, 0, Counter, Gate(0)),
    row!(own DSuitability, 1, Plain, Always),
    row!(own QSuitability, 1, Qualifier, Always),
    row!(own MLoadinggauge, 1, Plain, Qualifier(0)),
    row!(own MAxleload, 1, Plain, Qualifier(1)),
    row!(own MTraction, 1, Plain, Qualifier(2)),
];

/// The rows of packet 71.
pub const ADHESION: [Row; 4] = [
    row!(shared QScale, 0, Plain, Always),
    row!(own DAdhesion, 0, Plain, Always),
    row!(own LAdhesion, 0, Plain, Always),
    row!(own MAdhesion, 0, Plain, Always),
];

/// The rows of packet 72.
pub const PLAIN_TEXT: [Row; 15] = [
    row!(shared QScale, 0, Plain, Always),
    row!(own QTextclass, 0, Plain, Always),
    row!(own QTextdisplay, 0, Plain, Always),
    row!(own DTextdisplay, 0, Plain, Always),
    row!(own MModetextdisplay, 0, Plain, Always),
    row!(own MLeveltextdisplay, 0, Qualifier, Always),
    row!(shared NidStm, 0, Plain, Qualifier(1)),
    row!(own LTextdisplay, 0, Plain, Always),
    row!(own TTextdisplay, 0, Plain, Always),
    row!(own MModetextdisplay, 0, Plain, Always),
    row!(own MLeveltextdisplay, 0, Qualifier, Always),
    row!(shared NidStm, 0, Plain, Qualifier(1)),
    row!(own QTextconfirm, 0, Plain, Always),
    row!(own LText, 0, Counter, Always),
    row!(own XText, 1, Plain, Always),
];

/// The rows of packet 76.
pub const FIXED_TEXT: [Row; 14] = [
    row!(shared QScale, 0, Plain, Always),
    row!(own QTextclass, 0, Plain, Always),
    row!(own QTextdisplay, 0, Plain, Always),
    row!(own DTextdisplay, 0, Plain, Always),
    row!(own MModetextdisplay, 0, Plain, Always),
    row!(own MLeveltextdisplay, 0, Qualifier, Always),
    row!(shared NidStm, 0, Plain, Qualifier(1)),
    row!(own LTextdisplay, 0, Plain, Always),
    row!(own TTextdisplay, 0, Plain, Always),
    row!(own MModetextdisplay, 0, Plain, Always),
    row!(own MLeveltextdisplay, 0, Qualifier, Always),
    row!(shared NidStm, 0, Plain, Qualifier(1)),
    row!(own QTextconfirm, 0, Plain, Always),
    row!(own QText, 0, Plain, Always),
];

/// The rows of packet 79.
pub const GEOGRAPHICAL_POSITIONS: [Row; 14] = [
    row!(shared QScale, 0, Plain, Always),
    row!(shared QNewcountry, 0, Qualifier, Always),
    row!(shared NidC, 0, Plain, Qualifier(1)),
    row!(shared NidBg, 0, Plain, Always),
    row!(own DPosoff, 0, Plain, Always),
    row!(own QMposition, 0, Plain, Always),
    row!(own MPosition, 0, Plain, Always),
    row!(shared NIter, 0, Counter, Always),
    row!(shared QNewcountry, 1, Qualifier, Always),
    row!(shared NidC, 1, Plain, Qualifier(1)),
    row!(shared NidBg, 1, Plain, Always),
    row!(own DPosoff, 1, Plain, Always),
    row!(own QMposition, 1, Plain, Always),
    row!(own MPosition, 1, Plain, Always),
];

/// The rows of packet 90 and packet 136.
pub const GROUP_AHEAD: [Row; 3] = [
    row!(shared QNewcountry, 0, Qualifier, Always),
    row!(shared NidC, 0, Plain, Qualifier(1)),
    row!(shared NidBg, 0, Plain, Always),
];

/// The rows of packet 131.
pub const CENTRE_TRANSITION: [Row; 6] = [
    row!(shared QScale, 0, Plain, Always),
    row!(own DRbctr, 0, Plain, Always),
    row!(shared NidC, 0, Plain, Always),
    row!(own NidRbc, 0, Plain, Always),
    row!(own NidRadio, 0, Plain, Always),
    row!(own QSleepsession, 0, Plain, Always),
];

/// The rows of packet 132.
pub const DANGER_FOR_SHUNTING: [Row; 1] = [row!(own QAspect, 0, Plain, Always)];

/// The rows of packet 133.
pub const RADIO_INFILL: [Row; 8] = [
    row!(shared QScale, 0, Plain, Always),
    row!(own QRiu, 0, Plain, Always),
    row!(shared NidC, 0, Plain, Always),
    row!(own NidRiu, 0, Plain, Always),
    row!(own NidRadio, 0, Plain, Always),
    row!(own DInfill, 0, Plain, Always),
    row!(shared NidC, 0, Plain, Always),
    row!(shared NidBg, 0, Plain, Always),
];

/// The rows of packet 134.
pub const LOOP_AHEAD: [Row; 6] = [
    row!(shared QScale, 0, Plain, Always),
    row!(own NidLoop, 0, Plain, Always),
    row!(own DLoop, 0, Plain, Always),
    row!(own LLoop, 0, Plain, Always),
    row!(own QLoopdir, 0, Plain, Always),
    row!(own QSscode, 0, Plain, Always),
];

/// The rows of packet 137.
pub const STAFF_RESPONSIBLE_STOP: [Row; 1] = [row!(own QSrstop, 0, Plain, Always)];

/// The rows of packet 138.
pub const REVERSING_AREA: [Row; 3] = [
    row!(shared QScale, 0, Plain, Always),
    row!(own DStartreverse, 0, Plain, Always),
    row!(own LReversearea, 0, Plain, Always),
];

/// The rows of packet 139.
pub const REVERSING_SUPERVISION: [Row; 3] = [
    row!(shared QScale, 0, Plain, Always),
    row!(own DReverse, 0, Plain, Always),
    row!(own VReverse, 0, Plain, Always),
];

/// The rows of packet 140.
pub const RUNNING_NUMBER: [Row; 1] = [row!(own NidOperational, 0, Plain, Always)];

/// The rows of packet 141.
pub const DEFAULT_GRADIENT: [Row; 2] = [
    row!(shared QGdir, 0, Plain, Always),
    row!(own GTsr, 0, Plain, Always),
];

/// The rows of a packet after L_PACKET, by its number: none where its layout isn't reported here.
pub fn rows_of(number: u8) -> &'static [Row]
    ensures { result.now ≡ rows_reported number }
{
    match number {
        3 => &NATIONAL_VALUES,
        16 => &REPOSITIONING,
        39 => &TRACTION_CHANGE,
        42 => &SESSION_MANAGEMENT,
        44 => &OTHER_APPLICATION,
        45 => &NETWORK_REGISTRATION,
        46 => &CONDITIONAL_LEVELS,
        49 => &LISTED_GROUPS,
        51 => &AXLE_LOAD_SPEEDS,
        57 => &AUTHORITY_REQUESTS,
        58 => &POSITION_REPORTS,
        67 => &BIG_METAL_MASSES,
        68 => &TRACK_CONDITIONS,
        70 => &ROUTE_SUITABILITY,
        71 => &ADHESION,
        72 => &PLAIN_TEXT,
        76 => &FIXED_TEXT,
        79 => &GEOGRAPHICAL_POSITIONS,
        90 => &GROUP_AHEAD,
        131 => &CENTRE_TRANSITION,
        132 => &DANGER_FOR_SHUNTING,
        133 => &RADIO_INFILL,
        134 => &LOOP_AHEAD,
        137 => &STAFF_RESPONSIBLE_STOP,
        138 => &REVERSING_AREA,
        139 => &REVERSING_SUPERVISION,
        140 => &RUNNING_NUMBER,
        141 => &DEFAULT_GRADIENT,
        63 => &LISTED_GROUPS,
        136 => &GROUP_AHEAD,
        _ => &[],
    }
}
