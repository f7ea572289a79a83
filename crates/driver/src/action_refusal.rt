//! Why an action of the driver isn't accepted.

/// The condition of an action that fails, the first one in this order (the table of actions: this project's profile).
#[derive(Clone, Copy)]
pub enum ActionRefusal {
    /// The action isn't for this mode.
    OtherMode,
    /// The train isn't at standstill.
    NotAtStandstill,
    /// The speed is above the one up to which the trip may be overridden (V_NVALLOWOVTRP).
    TooFast,
    /// What is to be confirmed is unknown.
    NothingToConfirm,
    /// The driver's identity isn't valid.
    IdentityNotValid,
    /// The level isn't valid.
    LevelNotValid,
    /// A trip isn't acknowledged yet.
    TripOutstanding,
    /// The train data aren't valid.
    TrainDataNotValid,
    /// No trip is to be acknowledged.
    NoTrip,
    /// This acknowledgement is neither asked for nor owed.
    NotRequested,
}
