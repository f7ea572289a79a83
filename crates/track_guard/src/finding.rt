//! What is found in a telegram, what is demanded for it, and where the standard says so.

/// What a train of issue 2.3.0 acts on, and this kernel skips or refuses. The number is that by which C knows it.
#[derive(Clone, Copy, Debug)]
pub enum Finding {
    /// Packet 137, Stop if in Staff Responsible, unless Q_SRSTOP is 1.
    StopInStaffResponsible = 1,
    /// Packet 132, Danger for Shunting information, unless Q_ASPECT is 1.
    DangerForShunting = 2,
    /// Packet 49, List of balises for SH Area.
    ShuntingBalises = 3,
    /// Packet 135, Stop Shunting on desk opening.
    StopShunting = 4,
    /// Packet 16, Repositioning Information.
    Repositioning = 5,
    /// Packet 46, Conditional Level Transition Order.
    ConditionalLevel = 6,
    /// Packet 51, Axle load Speed Profile.
    AxleLoadSpeeds = 7,
    /// Packet 70, Route Suitability Data.
    RouteSuitability = 8,
    /// Packet 71, Adhesion Factor, unless M_ADHESION is 1.
    SlipperyRail = 9,
    /// Packet 12 whose V_LOA is above 0 and never ends (T_LOA 1023).
    EndlessEndSpeed = 10,
    /// The telegram is of a version with a greater first number (M_VERSION from 32 on).
    GreaterVersion = 11,
    /// It is of a later version with the same first number (M_VERSION 17 to 31).
    SameVersion = 12,
    /// It is of a version with a lesser first number (M_VERSION below 16).
    LesserVersion = 13,
    /// It is refused for a fault after Q_MEDIA, and its Q_LINK is 0.
    RefusedUnlinked = 14,
    /// It is refused, and none of the four before.
    Refused = 15,
}

/// What is demanded of the equipment around the unit. The number is that by which C knows it.
#[derive(Clone, Copy, Debug)]
pub enum Action {
    /// The train is tripped: the emergency brake.
    Trip = 1,
    /// The service brake.
    ServiceBrake = 2,
    /// The unit doesn't obey a packet that restricts: the equipment has to.
    NotObeyed = 3,
    /// The unit can't read the telegram, and takes nothing from it.
    Unreadable = 4,
}

/// A place in SUBSET-026, issue 2.3.0: 4.6.3 is chapter 4, section 6, clause 3. Clause 0 is the whole section.
#[derive(Clone, Copy, Debug)]
pub struct Section {
    /// The chapter.
    pub chapter: u8,
    /// The section of the chapter.
    pub section: u8,
    /// The clause of the section; 0 for all of it.
    pub clause: u8,
}

/// How sure it is that the issue says so: nobody who wrote the table had a copy of it.
#[derive(Clone, Copy, Debug)]
pub enum Sureness {
    /// Sure (S).
    Sure = 1,
    /// Fairly sure (F).
    FairlySure = 2,
    /// To be looked up (B).
    ToBeLookedUp = 3,
}
