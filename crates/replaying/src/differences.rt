//! What of a record or of a head may differ from what the kernel answers.

/// What a block says about an event along with the event itself, in the order in which it is compared.
#[derive(Clone, Copy)]
pub enum RecordField {
    /// The number of the event.
    Number,
    /// The cold movement value of a power-up, in a format that doesn't have it.
    ColdMovement,
    /// The moment, in milliseconds.
    Moment,
    /// The mode.
    Mode,
    /// The level.
    Level,
    /// What the brakes were commanded to do.
    Brake,
    /// What the driver was shown.
    Indications,
    /// Place and limit, which one of the two reports and the other doesn't.
    Situation,
    /// The estimated place, in centimetres.
    Estimate,
    /// How far from there the front may be, in centimetres.
    Uncertainty,
    /// The limit, in metres per hour.
    Limit,
}

/// What a head says about what is kept, in the order in which it is compared.
#[derive(Clone, Copy)]
pub enum KeptField {
    /// How many events there were.
    Events,
    /// How many power-ups there were.
    Lives,
    /// Whether a trip is outstanding.
    Trip,
    /// The driver's identity.
    Identity,
    /// The running number.
    RunningNumber,
    /// The train data.
    TrainData,
    /// The level, with its status.
    Level,
    /// The position, with its status.
    Position,
    /// The national values.
    NationalValues,
    /// The countries that the national values are for.
    Countries,
}
