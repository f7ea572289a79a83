//! What is known of a packet by its number: its name, who sends it, and how its fields are reported.
ghost use Rattle.std.specs.Prelude.{◌≡◌};
ghost use Rattle.track_packets.specs.Kinds.{kind_in, kind_reported, name_text};

/// The packets by name (SUBSET-026, 7.4.2).
#[derive(Clone, Copy)]
pub enum PacketName {
    /// 0: Virtual Balise Cover marker.
    VirtualBaliseCoverMarker,
    /// 2: System Version order.
    SystemVersionOrder,
    /// 3: National Values.
    NationalValues,
    /// 5: Linking.
    Linking,
    /// 6: Virtual Balise Cover order.
    VirtualBaliseCoverOrder,
    /// 12: Level 1 Movement Authority.
    MovementAuthority,
    /// 16: Repositioning Information.
    Repositioning,
    /// 21: Gradient Profile.
    GradientProfile,
    /// 27: International Static Speed Profile.
    StaticSpeedProfile,
    /// 39: Track Condition Change of traction power.
    TractionChange,
    /// 41: Level Transition Order.
    LevelTransition,
    /// 42: Session Management.
    SessionManagement,
    /// 44: Data used by applications outside the ERTMS/ETCS system.
    OtherApplication,
    /// 45: Radio Network registration.
    NetworkRegistration,
    /// 46: Conditional Level Transition Order.
    ConditionalLevelTransition,
    /// 49: List of balises for SH Area.
    ShuntingBalises,
    /// 51: Axle load Speed Profile.
    AxleLoadSpeedProfile,
    /// 52: Permitted Braking Distance Information.
    PermittedBrakingDistance,
    /// 57: Movement Authority Request Parameters.
    AuthorityRequests,
    /// 58: Position Report Parameters.
    PositionReports,
    /// 63: List of Balises in SR Authority.
    StaffResponsibleBalises,
    /// 65: Temporary Speed Restriction.
    SpeedRestriction,
    /// 66: Temporary Speed Restriction Revocation.
    RestrictionRevocation,
    /// 67: Track Condition Big Metal Masses.
    BigMetalMasses,
    /// 68: Track Condition.
    TrackCondition,
    /// 70: Route Suitability Data.
    RouteSuitability,
    /// 71: Adhesion Factor.
    AdhesionFactor,
    /// 72: Packet for sending plain text messages.
    PlainText,
    /// 76: Packet for sending fixed text messages.
    FixedText,
    /// 79: Geographical Position Information.
    GeographicalPosition,
    /// 80: Mode profile.
    ModeProfile,
    /// 90: Track Ahead Free up to level 2/3 transition location.
    TrackAheadFree,
    /// 131: RBC transition order.
    CentreTransition,
    /// 132: Danger for Shunting information.
    DangerForShunting,
    /// 133: Radio infill area information.
    RadioInfillArea,
    /// 134: EOLM Packet.
    LoopAhead,
    /// 135: Stop Shunting on desk opening.
    StopShunting,
    /// 136: Infill location reference.
    InfillLocation,
    /// 137: Stop if in Staff Responsible.
    StopInStaffResponsible,
    /// 138: Reversing area information.
    ReversingArea,
    /// 139: Reversing supervision information.
    ReversingSupervision,
    /// 140: Train running number from RBC.
    RunningNumber,
    /// 141: Default Gradient for Temporary Speed Restriction.
    DefaultGradient,
    /// 145: Inhibition of balise group message consistency reaction.
    ConsistencyReaction,
    /// 180: LSSMA display toggle order.
    SupervisionDisplay,
    /// 181: Generic LS function marker.
    SupervisionMarker,
    /// 254: Default balise, loop or RIU information.
    DefaultInformation,
    /// 255: End of Information.
    EndOfInformation,
}

impl PacketName {
    /// The name as the standard writes it.
    pub fn text(self) -> &'static str
        ensures { result.now ≡ name_text self }
    {
        match self {
            PacketName::VirtualBaliseCoverMarker => "Virtual Balise Cover marker",
            PacketName::SystemVersionOrder => "System Version order",
            PacketName::NationalValues => "National Values",
            PacketName::Linking => "Linking",
            PacketName::VirtualBaliseCoverOrder => "Virtual Balise Cover order",
            PacketName::MovementAuthority => "Level 1 Movement Authority",
            PacketName::Repositioning => "Repositioning Information",
            PacketName::GradientProfile => "Gradient Profile",
            PacketName::StaticSpeedProfile => "International Static Speed Profile",
            PacketName::TractionChange => "Track Condition Change of traction power",
            PacketName::LevelTransition => "Level Transition Order",
            PacketName::SessionManagement => "Session Management",
            PacketName::OtherApplication =>
                "Data used by applications outside the ERTMS/ETCS system",
            PacketName::NetworkRegistration => "Radio Network registration",
            PacketName::ConditionalLevelTransition => "Conditional Level Transition Order",
            PacketName::ShuntingBalises => "List of balises for SH Area",
            PacketName::AxleLoadSpeedProfile => "Axle load Speed Profile",
            PacketName::PermittedBrakingDistance => "Permitted Braking Distance Information",
            PacketName::AuthorityRequests => "Movement Authority Request Parameters",
            PacketName::PositionReports => "Position Report Parameters",
            PacketName::StaffResponsibleBalises => "List of Balises in SR Authority",
            PacketName::SpeedRestriction => "Temporary Speed Restriction",
            PacketName::RestrictionRevocation => "Temporary Speed Restriction Revocation",
            PacketName::BigMetalMasses => "Track Condition Big Metal Masses",
            PacketName::TrackCondition => "Track Condition",
            PacketName::RouteSuitability => "Route Suitability Data",
            PacketName::AdhesionFactor => "Adhesion Factor",
            PacketName::PlainText => "Packet for sending plain text messages",
            PacketName::FixedText => "Packet for sending fixed text messages",
            PacketName::GeographicalPosition => "Geographical Position Information",
            PacketName::ModeProfile => "Mode profile",
            PacketName::TrackAheadFree => "Track Ahead Free up to level 2/3 transition location",
            PacketName::CentreTransition => "RBC transition order",
            PacketName::DangerForShunting => "Danger for Shunting information",
            PacketName::RadioInfillArea => "Radio infill area information",
            PacketName::LoopAhead => "EOLM Packet",
            PacketName::StopShunting => "Stop Shunting on desk opening",
            PacketName::InfillLocation => "Infill location reference",
            PacketName::StopInStaffResponsible => "Stop if in Staff Responsible",
            PacketName::ReversingArea => "Reversing area information",
            PacketName::ReversingSupervision => "Reversing supervision information",
            PacketName::RunningNumber => "Train running number from RBC",
            PacketName::DefaultGradient => "Default Gradient for Temporary Speed Restriction",
            PacketName::ConsistencyReaction =>
                "Inhibition of balise group message consistency reaction",
            PacketName::SupervisionDisplay => "LSSMA display toggle order",
            PacketName::SupervisionMarker => "Generic LS function marker",
            PacketName::DefaultInformation => "Default balise, loop or RIU information",
            PacketName::EndOfInformation => "End of Information",
        }
    }
}

/// Who sends a packet.
#[derive(Clone, Copy)]
pub enum Sender {
    /// Balises; some of these packets are sent by radio or by a loop too.
    Balise,
    /// The radio alone: a balise doesn't send it.
    Radio,
}

/// Which issue of the standard has a packet.
#[derive(Clone, Copy)]
pub enum Issue {
    /// 2.3.0.
    This,
    /// A later one.
    Later,
}

/// How the fields of a packet are reported.
#[derive(Clone, Copy)]
pub enum Body {
    /// By the rows of its layout, which take all its bits.
    Rows,
    /// By the rows of its layout; what follows them isn't the standard's.
    RowsThenBits,
    /// Its layout isn't known for sure, or is of a later issue: its bits stay together.
    Bits,
    /// By `packets`, which has its layout.
    Kernel,
    /// By `packets` where its length is that of this project's order (147 + 10 N_ITER), else by the rows of one of its
    /// two possible layouts, the one with N_ITER before the first NID_C, which take all its bits (176 + 10 N_ITER):
    /// packet 3.
    OwnOrRows,
    /// It has its number alone.
    NumberOnly,
}

/// How sure name, sender and layout are: nobody who wrote them had a copy of the issue.
#[derive(Clone, Copy)]
pub enum Sureness {
    /// Sure (S).
    Sure,
    /// Fairly sure (F).
    FairlySure,
    /// The name alone; the layout is to be looked up (B).
    NameOnly,
}

/// What is known of a packet by its number.
#[derive(Clone, Copy)]
pub struct Kind {
    /// NID_PACKET.
    pub number: u8,
    /// Its name.
    pub name: PacketName,
    /// Who sends it.
    pub sender: Sender,
    /// Which issue has it.
    pub issue: Issue,
    /// How its fields are reported.
    pub body: Body,
    /// How sure this is.
    pub sureness: Sureness,
}

macro_rules! kind {
    ($number:expr, $name:ident, $sender:ident, $issue:ident, $body:ident, $sureness:ident) => {
        Kind {
            number: $number,
            name: PacketName::$name,
            sender: Sender::$sender,
            issue: Issue::$issue,
            body: Body::$body,
            sureness: Sureness::$sureness,
        }
    };
}

/// All packets that have a name here, by their numbers.
pub const KINDS: [Kind; 48] = [
    kind!(0, VirtualBaliseCoverMarker, Balise, Later, Bits, NameOnly),
    kind!(2, SystemVersionOrder, Balise, Later, Bits, NameOnly),
    kind!(3, NationalValues, Balise, This, OwnOrRows, NameOnly),
    kind!(5, Linking, Balise, This, Kernel, Sure),
    kind!(6, VirtualBaliseCoverOrder, Balise, Later, Bits, NameOnly),
    kind!(12, MovementAuthority, Balise, This, Kernel, Sure),
    kind!(16, Repositioning, Balise, This, Rows, FairlySure),
    kind!(21, GradientProfile, Balise, This, Kernel, Sure),
    kind!(27, StaticSpeedProfile, Balise, This, Kernel, Sure),
    kind!(39, TractionChange, Balise, This, Rows, FairlySure),
    kind!(41, LevelTransition, Balise, This, Kernel, Sure),
    kind!(42, SessionManagement, Balise, This, Rows, Sure),
    kind!(44, OtherApplication, Balise, This, RowsThenBits, Sure),
    kind!(45, NetworkRegistration, Balise, This, Rows, FairlySure),
    kind!(46, ConditionalLevelTransition, Balise, This, Rows, Sure),
    kind!(49, ShuntingBalises, Balise, This, Rows, Sure),
    kind!(51, AxleLoadSpeedProfile, Balise, This, Rows, FairlySure),
    kind!(52, PermittedBrakingDistance, Balise, Later, Bits, NameOnly),
    kind!(57, AuthorityRequests, Radio, This, Rows, FairlySure),
    kind!(58, PositionReports, Radio, This, Rows, FairlySure),
    kind!(63, StaffResponsibleBalises, Radio, This, Rows, FairlySure),
    kind!(65, SpeedRestriction, Balise, This, Kernel, Sure),
    kind!(66, RestrictionRevocation, Balise, This, Kernel, Sure),
    kind!(67, BigMetalMasses, Balise, This, Rows, Sure),
    kind!(68, TrackCondition, Balise, This, Rows, FairlySure),
    kind!(70, RouteSuitability, Balise, This, Rows, FairlySure),
    kind!(71, AdhesionFactor, Balise, This, Rows, Sure),
    kind!(72, PlainText, Balise, This, Rows, FairlySure),
    kind!(76, FixedText, Balise, This, Rows, FairlySure),
    kind!(79, GeographicalPosition, Balise, This, Rows, FairlySure),
    kind!(80, ModeProfile, Balise, This, Kernel, Sure),
    kind!(90, TrackAheadFree, Balise, This, Rows, Sure),
    kind!(131, CentreTransition, Balise, This, Rows, Sure),
    kind!(132, DangerForShunting, Balise, This, Rows, Sure),
    kind!(133, RadioInfillArea, Balise, This, Rows, FairlySure),
    kind!(134, LoopAhead, Balise, This, Rows, FairlySure),
    kind!(135, StopShunting, Balise, This, Rows, Sure),
    kind!(136, InfillLocation, Balise, This, Rows, Sure),
    kind!(137, StopInStaffResponsible, Balise, This, Rows, Sure),
    kind!(138, ReversingArea, Balise, This, Rows, FairlySure),
    kind!(139, ReversingSupervision, Balise, This, Rows, FairlySure),
    kind!(140, RunningNumber, Radio, This, Rows, Sure),
    kind!(141, DefaultGradient, Balise, This, Rows, Sure),
    kind!(145, ConsistencyReaction, Balise, Later, Bits, NameOnly),
    kind!(180, SupervisionDisplay, Balise, Later, Bits, NameOnly),
    kind!(181, SupervisionMarker, Balise, Later, Bits, NameOnly),
    kind!(254, DefaultInformation, Balise, This, Rows, Sure),
    kind!(255, EndOfInformation, Balise, This, NumberOnly, Sure),
];

/// The first of some kinds that has a number.
fn find(kinds: &[Kind], number: u8) -> Option<Kind>
    ensures { result ≡ kind_in number kinds.now }
{
    match kinds.split_first() {
        Some((kind, _)) if kind.number == number => Some(*kind),
        Some((_, others)) => find(others, number),
        None => None,
    }
}

/// What is known of a packet, by its number: None where it has no name here.
pub fn kind_of(number: u8) -> Option<Kind>
    ensures { result ≡ kind_reported number }
{
    find(&KINDS, number)
}
