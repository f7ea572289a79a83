//! The variables of the packets as data: name, width in bits and unit, a row each (SUBSET-026, 7.5.1).
ghost use Rattle.std.specs.Prelude.{◌≡◌, ◌≤◌};
ghost use Rattle.track_packets.specs.Variables.{shape_of, text_of, unit_of, width_of};

use crate::shape::{Shape, Unit};
use crate::shared::shared_shape;
use bits::VariableName;

/// A variable (SUBSET-026, 7.5.1): one that the kernel's packets have too, or another one.
#[derive(Clone, Copy)]
pub enum Variable {
    /// A variable of the kernel's packets.
    Shared(VariableName),
    /// Q_NVSRBKTRG, whether the service brake may be used.
    QNvsrbktrg,
    /// Q_NVEMRRLS, when the emergency brake is released.
    QNvemrrls,
    /// D_NVPOTRP, how far the train may go back in Post Trip.
    DNvpotrp,
    /// M_NVCONTACT, what the loss of the radio contact brings.
    MNvcontact,
    /// T_NVCONTACT, the time without contact after which it does.
    TNvcontact,
    /// M_NVDERUN, whether the driver's identity may be entered while running.
    MNvderun,
    /// Q_NVDRIVER_ADHES, whether the driver may change the adhesion.
    QNvdriverAdhes,
    /// D_TRACTION, the way to where the traction power changes.
    DTraction,
    /// M_TRACTION, the traction system.
    MTraction,
    /// Q_RBC, whether a session is begun or ended.
    QRbc,
    /// NID_RBC, the number of the radio block centre.
    NidRbc,
    /// NID_RADIO, its telephone number.
    NidRadio,
    /// Q_SLEEPSESSION, whether a sleeping unit carries the order out.
    QSleepsession,
    /// NID_XUSER, the system that the data are for.
    NidXuser,
    /// NID_MN, the radio network.
    NidMn,
    /// Q_TRACKINIT, whether the initial state comes back, and nothing else follows.
    QTrackinit,
    /// D_TRACKINIT, the way to where it comes back.
    DTrackinit,
    /// D_AXLELOAD, the way to where a speed by axle load begins.
    DAxleload,
    /// L_AXLELOAD, its length.
    LAxleload,
    /// M_AXLELOAD, the axle load from which on it holds.
    MAxleload,
    /// V_AXLELOAD, the speed.
    VAxleload,
    /// T_MAR, the time before an authority is asked for.
    TMar,
    /// T_TIMEOUTRQST, the time before the end of a timer at which it is.
    TTimeoutrqst,
    /// T_CYCRQST, the time between two requests.
    TCycrqst,
    /// T_CYCLOC, the time between two reports of the position.
    TCycloc,
    /// D_CYCLOC, the way between two reports.
    DCycloc,
    /// M_LOC, where else a report is sent.
    MLoc,
    /// D_LOC, the way to a place of a report.
    DLoc,
    /// Q_LGTLOC, which end of the train counts there.
    QLgtloc,
    /// D_TRACKCOND, the way to where a condition of the track begins.
    DTrackcond,
    /// L_TRACKCOND, its length.
    LTrackcond,
    /// M_TRACKCOND, the condition.
    MTrackcond,
    /// D_SUITABILITY, the way to where a suitability changes.
    DSuitability,
    /// Q_SUITABILITY, which one it is.
    QSuitability,
    /// M_LOADINGGAUGE, the loading gauge.
    MLoadinggauge,
    /// D_ADHESION, the way to where the adhesion changes.
    DAdhesion,
    /// L_ADHESION, the length on which it does.
    LAdhesion,
    /// M_ADHESION, the adhesion.
    MAdhesion,
    /// Q_TEXTCLASS, how important a text is.
    QTextclass,
    /// Q_TEXTDISPLAY, whether one condition or all of them begin and end a text.
    QTextdisplay,
    /// D_TEXTDISPLAY, the way to where it begins.
    DTextdisplay,
    /// M_MODETEXTDISPLAY, the mode in which it begins, or ends.
    MModetextdisplay,
    /// M_LEVELTEXTDISPLAY, the level in which it begins, or ends.
    MLeveltextdisplay,
    /// L_TEXTDISPLAY, the length on which it is shown.
    LTextdisplay,
    /// T_TEXTDISPLAY, the time for which it is.
    TTextdisplay,
    /// Q_TEXTCONFIRM, whether the driver confirms it.
    QTextconfirm,
    /// L_TEXT, how many characters it has.
    LText,
    /// X_TEXT, a character.
    XText,
    /// Q_TEXT, which fixed text it is.
    QText,
    /// D_POSOFF, the way from the group to the place.
    DPosoff,
    /// Q_MPOSITION, which way the places are counted.
    QMposition,
    /// M_POSITION, the place as the track counts it.
    MPosition,
    /// D_RBCTR, the way to where another radio block centre takes over.
    DRbctr,
    /// Q_ASPECT, whether Shunting ends here.
    QAspect,
    /// Q_RIU, whether a session is begun or ended.
    QRiu,
    /// NID_RIU, the number of the radio infill unit.
    NidRiu,
    /// D_INFILL, the way to where it may be asked.
    DInfill,
    /// NID_LOOP, the number of the loop.
    NidLoop,
    /// D_LOOP, the way to where it begins.
    DLoop,
    /// L_LOOP, its length.
    LLoop,
    /// Q_LOOPDIR, in which direction it is passed.
    QLoopdir,
    /// Q_SSCODE, the code of its signal.
    QSscode,
    /// Q_SRSTOP, whether a train in Staff Responsible stops.
    QSrstop,
    /// D_STARTREVERSE, the way to where reversing may begin.
    DStartreverse,
    /// L_REVERSEAREA, the length of that area.
    LReversearea,
    /// D_REVERSE, how far the train may reverse.
    DReverse,
    /// V_REVERSE, its speed then.
    VReverse,
    /// NID_OPERATIONAL, the running number of the train.
    NidOperational,
    /// G_TSR, the steepness under restrictions.
    GTsr,
}

/// Name, width and unit of a variable.
#[derive(Clone, Copy)]
struct VariableRow {
    text: &'static str,
    shape: Shape,
}

macro_rules! row {
    ($text:expr, $width:expr, $unit:ident) => {
        VariableRow {
            text: $text,
            shape: shape!($width, $unit),
        }
    };
}

/// The row of each variable.
fn row(variable: Variable) -> VariableRow
    ensures text { result.text.now ≡ text_of variable }
    ensures shape { result.shape ≡ shape_of variable }
    ensures bound { result.shape.width ≤ 64 }
{
    match variable {
        Variable::Shared(name) => VariableRow {
            text: name.text(),
            shape: shared_shape(name),
        },
        Variable::QNvsrbktrg => row!("Q_NVSRBKTRG", 1, Number),
        Variable::QNvemrrls => row!("Q_NVEMRRLS", 1, Number),
        Variable::DNvpotrp => row!("D_NVPOTRP", 15, ScaleSteps),
        Variable::MNvcontact => row!("M_NVCONTACT", 2, Number),
        Variable::TNvcontact => row!("T_NVCONTACT", 8, Seconds),
        Variable::MNvderun => row!("M_NVDERUN", 1, Number),
        Variable::QNvdriverAdhes => row!("Q_NVDRIVER_ADHES", 1, Number),
        Variable::DTraction => row!("D_TRACTION", 15, ScaleSteps),
        Variable::MTraction => row!("M_TRACTION", 8, Number),
        Variable::QRbc => row!("Q_RBC", 1, Number),
        Variable::NidRbc => row!("NID_RBC", 14, Number),
        Variable::NidRadio => row!("NID_RADIO", 64, Number),
        Variable::QSleepsession => row!("Q_SLEEPSESSION", 1, Number),
        Variable::NidXuser => row!("NID_XUSER", 9, Number),
        Variable::NidMn => row!("NID_MN", 24, Number),
        Variable::QTrackinit => row!("Q_TRACKINIT", 1, Number),
        Variable::DTrackinit => row!("D_TRACKINIT", 15, ScaleSteps),
        Variable::DAxleload => row!("D_AXLELOAD", 15, ScaleSteps),
        Variable::LAxleload => row!("L_AXLELOAD", 15, ScaleSteps),
        Variable::MAxleload => row!("M_AXLELOAD", 7, HalfTonnes),
        Variable::VAxleload => row!("V_AXLELOAD", 7, SpeedSteps),
        Variable::TMar => row!("T_MAR", 8, Seconds),
        Variable::TTimeoutrqst => row!("T_TIMEOUTRQST", 10, Seconds),
        Variable::TCycrqst => row!("T_CYCRQST", 8, Seconds),
        Variable::TCycloc => row!("T_CYCLOC", 8, Seconds),
        Variable::DCycloc => row!("D_CYCLOC", 15, ScaleSteps),
        Variable::MLoc => row!("M_LOC", 3, Number),
        Variable::DLoc => row!("D_LOC", 15, ScaleSteps),
        Variable::QLgtloc => row!("Q_LGTLOC", 1, Number),
        Variable::DTrackcond => row!("D_TRACKCOND", 15, ScaleSteps),
        Variable::LTrackcond => row!("L_TRACKCOND", 15, ScaleSteps),
        Variable::MTrackcond => row!("M_TRACKCOND", 4, Number),
        Variable::DSuitability => row!("D_SUITABILITY", 15, ScaleSteps),
        Variable::QSuitability => row!("Q_SUITABILITY", 2, Number),
        Variable::MLoadinggauge => row!("M_LOADINGGAUGE", 8, Number),
        Variable::DAdhesion => row!("D_ADHESION", 15, ScaleSteps),
        Variable::LAdhesion => row!("L_ADHESION", 15, ScaleSteps),
        Variable::MAdhesion => row!("M_ADHESION", 1, Number),
        Variable::QTextclass => row!("Q_TEXTCLASS", 2, Number),
        Variable::QTextdisplay => row!("Q_TEXTDISPLAY", 1, Number),
        Variable::DTextdisplay => row!("D_TEXTDISPLAY", 15, ScaleSteps),
        Variable::MModetextdisplay => row!("M_MODETEXTDISPLAY", 4, Number),
        Variable::MLeveltextdisplay => row!("M_LEVELTEXTDISPLAY", 3, Number),
        Variable::LTextdisplay => row!("L_TEXTDISPLAY", 15, ScaleSteps),
        Variable::TTextdisplay => row!("T_TEXTDISPLAY", 10, Seconds),
        Variable::QTextconfirm => row!("Q_TEXTCONFIRM", 2, Number),
        Variable::LText => row!("L_TEXT", 8, Number),
        Variable::XText => row!("X_TEXT", 8, Character),
        Variable::QText => row!("Q_TEXT", 8, Number),
        Variable::DPosoff => row!("D_POSOFF", 15, ScaleSteps),
        Variable::QMposition => row!("Q_MPOSITION", 1, Number),
        Variable::MPosition => row!("M_POSITION", 20, Number),
        Variable::DRbctr => row!("D_RBCTR", 15, ScaleSteps),
        Variable::QAspect => row!("Q_ASPECT", 1, Number),
        Variable::QRiu => row!("Q_RIU", 1, Number),
        Variable::NidRiu => row!("NID_RIU", 14, Number),
        Variable::DInfill => row!("D_INFILL", 15, ScaleSteps),
        Variable::NidLoop => row!("NID_LOOP", 14, Number),
        Variable::DLoop => row!("D_LOOP", 15, ScaleSteps),
        Variable::LLoop => row!("L_LOOP", 15, ScaleSteps),
        Variable::QLoopdir => row!("Q_LOOPDIR", 1, Number),
        Variable::QSscode => row!("Q_SSCODE", 4, Number),
        Variable::QSrstop => row!("Q_SRSTOP", 1, Number),
        Variable::DStartreverse => row!("D_STARTREVERSE", 15, ScaleSteps),
        Variable::LReversearea => row!("L_REVERSEAREA", 15, ScaleSteps),
        Variable::DReverse => row!("D_REVERSE", 15, ScaleSteps),
        Variable::VReverse => row!("V_REVERSE", 7, SpeedSteps),
        Variable::NidOperational => row!("NID_OPERATIONAL", 32, Number),
        Variable::GTsr => row!("G_TSR", 8, PerMille),
    }
}

impl Variable {
    /// The name as the language writes it.
    pub fn text(self) -> &'static str
        ensures { result.now ≡ text_of self }
    {
        row(self).text
    }

    /// The number of its bits.
    pub fn width(self) -> u32
        ensures value { result ≡ width_of self }
        ensures bound { result ≤ 64 }
    {
        row(self).shape.width
    }

    /// The unit of its numbers.
    pub fn unit(self) -> Unit
        ensures { result ≡ unit_of self }
    {
        row(self).shape.unit
    }
}
