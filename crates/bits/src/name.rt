//! Names for the fields of a layout: the variables of SUBSET-026, 7.5, and their text.
ghost use Rattle.std.specs.Prelude.{◌≡◌};
ghost use Rattle.bits.specs.Names.{name_text};

/// The variables of the language (SUBSET-026, 7.5), by which the fields of a layout are named.
#[derive(Clone, Copy)]
pub enum VariableName {
    /// Q_UPDOWN, which way the telegram goes.
    QUpdown,
    /// M_VERSION, the version of the language.
    MVersion,
    /// Q_MEDIA, a balise or a loop.
    QMedia,
    /// N_PIG, the position in the group.
    NPig,
    /// N_TOTAL, the position of the last balise of the group.
    NTotal,
    /// M_DUP, whether a neighbour repeats the balise.
    MDup,
    /// M_MCOUNT, the counter of the group's message.
    MMcount,
    /// NID_C, the country or region.
    NidC,
    /// NID_BG, the number of the group.
    NidBg,
    /// Q_LINK, whether the group is linked.
    QLink,
    /// NID_PACKET, the number of the packet.
    NidPacket,
    /// Q_DIR, the direction for which the packet is meant.
    QDir,
    /// L_PACKET, the bits of the packet.
    LPacket,
    /// Q_SCALE, the unit of its distances.
    QScale,
    /// N_ITER, how many elements follow.
    NIter,
    /// D_VALIDNV, the way to where national values come into force.
    DValidnv,
    /// V_NVSHUNT, the speed in Shunting.
    VNvshunt,
    /// V_NVSTFF, the speed in Staff Responsible.
    VNvstff,
    /// V_NVONSIGHT, the speed in On Sight.
    VNvonsight,
    /// V_NVUNFIT, the speed in Unfitted.
    VNvunfit,
    /// V_NVREL, the release speed.
    VNvrel,
    /// D_NVROLL, how far the train may roll.
    DNvroll,
    /// V_NVALLOWOVTRP, up to which speed an override is accepted.
    VNvallowovtrp,
    /// V_NVSUPOVTRP, the speed while an override is active.
    VNvsupovtrp,
    /// D_NVOVTRP, the distance of an override.
    DNvovtrp,
    /// T_NVOVTRP, the time of an override.
    TNvovtrp,
    /// D_NVSTFF, the distance in Staff Responsible.
    DNvstff,
    /// D_LINK, the way to the group that is announced.
    DLink,
    /// Q_NEWCOUNTRY, whether a country follows.
    QNewcountry,
    /// Q_LINKORIENTATION, in which direction the group is passed.
    QLinkorientation,
    /// Q_LINKREACTION, what a missed group brings.
    QLinkreaction,
    /// Q_LOCACC, the accuracy of its place.
    QLocacc,
    /// V_MAIN, the speed of the authority.
    VMain,
    /// V_LOA, the speed at its end.
    VLoa,
    /// T_LOA, how long that speed holds.
    TLoa,
    /// L_SECTION, the length of a section.
    LSection,
    /// Q_SECTIONTIMER, whether a section has a timer.
    QSectiontimer,
    /// T_SECTIONTIMER, its time.
    TSectiontimer,
    /// D_SECTIONTIMERSTOPLOC, where it stops, from the start of the section.
    DSectiontimerstoploc,
    /// L_ENDSECTION, the length of the end section.
    LEndsection,
    /// Q_ENDTIMER, whether the end section has a further timer.
    QEndtimer,
    /// T_ENDTIMER, its time.
    TEndtimer,
    /// D_ENDTIMERSTARTLOC, how far before the end it starts.
    DEndtimerstartloc,
    /// Q_DANGERPOINT, whether a danger point follows.
    QDangerpoint,
    /// D_DP, its distance beyond the end.
    DDp,
    /// V_RELEASEDP, its release speed.
    VReleasedp,
    /// Q_OVERLAP, whether an overlap follows.
    QOverlap,
    /// D_STARTOL, how far before the end its timer starts.
    DStartol,
    /// T_OL, its time.
    TOl,
    /// D_OL, its length.
    DOl,
    /// V_RELEASEOL, its release speed.
    VReleaseol,
    /// D_GRADIENT, the way to where a gradient begins.
    DGradient,
    /// Q_GDIR, uphill or downhill.
    QGdir,
    /// G_A, how steep it is.
    GA,
    /// D_STATIC, the way to where a static speed begins.
    DStatic,
    /// V_STATIC, the static speed.
    VStatic,
    /// Q_FRONT, whether the train's length delays a higher speed.
    QFront,
    /// NC_DIFF, a category of trains.
    NcDiff,
    /// V_DIFF, its speed.
    VDiff,
    /// D_LEVELTR, the way to where the level changes.
    DLeveltr,
    /// M_LEVELTR, the level.
    MLeveltr,
    /// NID_STM, the number of a national system.
    NidStm,
    /// L_ACKLEVELTR, how far before that the acknowledgement is asked for.
    LAckleveltr,
    /// NID_TSR, the number of a restriction.
    NidTsr,
    /// D_TSR, the way to where it begins.
    DTsr,
    /// L_TSR, its length.
    LTsr,
    /// V_TSR, its speed.
    VTsr,
    /// D_MAMODE, the way to where an area begins.
    DMamode,
    /// M_MAMODE, its mode.
    MMamode,
    /// V_MAMODE, its speed.
    VMamode,
    /// L_MAMODE, its length.
    LMamode,
    /// L_ACKMAMODE, how far before that the acknowledgement is asked for.
    LAckmamode,
}

impl VariableName {
    /// The name as the language writes it (SUBSET-026, 7.5.1).
    pub fn text(self) -> &'static str
        ensures { result.now ≡ name_text self }
    {
        match self {
            VariableName::QUpdown => "Q_UPDOWN",
            VariableName::MVersion => "M_VERSION",
            VariableName::QMedia => "Q_MEDIA",
            VariableName::NPig => "N_PIG",
            VariableName::NTotal => "N_TOTAL",
            VariableName::MDup => "M_DUP",
            VariableName::MMcount => "M_MCOUNT",
            VariableName::NidC => "NID_C",
            VariableName::NidBg => "NID_BG",
            VariableName::QLink => "Q_LINK",
            VariableName::NidPacket => "NID_PACKET",
            VariableName::QDir => "Q_DIR",
            VariableName::LPacket => "L_PACKET",
            VariableName::QScale => "Q_SCALE",
            VariableName::NIter => "N_ITER",
            VariableName::DValidnv => "D_VALIDNV",
            VariableName::VNvshunt => "V_NVSHUNT",
            VariableName::VNvstff => "V_NVSTFF",
            VariableName::VNvonsight => "V_NVONSIGHT",
            VariableName::VNvunfit => "V_NVUNFIT",
            VariableName::VNvrel => "V_NVREL",
            VariableName::DNvroll => "D_NVROLL",
            VariableName::VNvallowovtrp => "V_NVALLOWOVTRP",
            VariableName::VNvsupovtrp => "V_NVSUPOVTRP",
            VariableName::DNvovtrp => "D_NVOVTRP",
            VariableName::TNvovtrp => "T_NVOVTRP",
            VariableName::DNvstff => "D_NVSTFF",
            VariableName::DLink => "D_LINK",
            VariableName::QNewcountry => "Q_NEWCOUNTRY",
            VariableName::QLinkorientation => "Q_LINKORIENTATION",
            VariableName::QLinkreaction => "Q_LINKREACTION",
            VariableName::QLocacc => "Q_LOCACC",
            VariableName::VMain => "V_MAIN",
            VariableName::VLoa => "V_LOA",
            VariableName::TLoa => "T_LOA",
            VariableName::LSection => "L_SECTION",
            VariableName::QSectiontimer => "Q_SECTIONTIMER",
            VariableName::TSectiontimer => "T_SECTIONTIMER",
            VariableName::DSectiontimerstoploc => "D_SECTIONTIMERSTOPLOC",
            VariableName::LEndsection => "L_ENDSECTION",
            VariableName::QEndtimer => "Q_ENDTIMER",
            VariableName::TEndtimer => "T_ENDTIMER",
            VariableName::DEndtimerstartloc => "D_ENDTIMERSTARTLOC",
            VariableName::QDangerpoint => "Q_DANGERPOINT",
            VariableName::DDp => "D_DP",
            VariableName::VReleasedp => "V_RELEASEDP",
            VariableName::QOverlap => "Q_OVERLAP",
            VariableName::DStartol => "D_STARTOL",
            VariableName::TOl => "T_OL",
            VariableName::DOl => "D_OL",
            VariableName::VReleaseol => "V_RELEASEOL",
            VariableName::DGradient => "D_GRADIENT",
            VariableName::QGdir => "Q_GDIR",
            VariableName::GA => "G_A",
            VariableName::DStatic => "D_STATIC",
            VariableName::VStatic => "V_STATIC",
            VariableName::QFront => "Q_FRONT",
            VariableName::NcDiff => "NC_DIFF",
            VariableName::VDiff => "V_DIFF",
            VariableName::DLeveltr => "D_LEVELTR",
            VariableName::MLeveltr => "M_LEVELTR",
            VariableName::NidStm => "NID_STM",
            VariableName::LAckleveltr => "L_ACKLEVELTR",
            VariableName::NidTsr => "NID_TSR",
            VariableName::DTsr => "D_TSR",
            VariableName::LTsr => "L_TSR",
            VariableName::VTsr => "V_TSR",
            VariableName::DMamode => "D_MAMODE",
            VariableName::MMamode => "M_MAMODE",
            VariableName::VMamode => "V_MAMODE",
            VariableName::LMamode => "L_MAMODE",
            VariableName::LAckmamode => "L_ACKMAMODE",
        }
    }
}
