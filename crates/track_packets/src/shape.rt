//! Width and unit of a variable (SUBSET-026, 7.5.1).

/// The unit of a variable's numbers.
#[derive(Clone, Copy)]
pub enum Unit {
    /// None: a choice, a count or an identity.
    Number,
    /// Steps of the packet's scale (Q_SCALE).
    ScaleSteps,
    /// Steps of 5 km/h.
    SpeedSteps,
    /// Seconds.
    Seconds,
    /// Metres.
    Metres,
    /// Per mille.
    PerMille,
    /// Steps of half a tonne.
    HalfTonnes,
    /// A character of a text (ISO 8859-1).
    Character,
}

/// Width and unit of a variable.
#[derive(Clone, Copy)]
pub(crate) struct Shape {
    /// The number of its bits.
    pub(crate) width: u32,
    /// The unit of its numbers.
    pub(crate) unit: Unit,
}
