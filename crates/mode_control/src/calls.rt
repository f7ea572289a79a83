//! Which acknowledgements an event calls for: of On Sight, Shunting or level 0.
use units::Ms;

/// The kinds of what the driver has to acknowledge, a trip apart (SUBSET-026, 5.7, 5.9 and 5.10).
#[derive(Clone, Copy)]
pub enum Kind {
    /// On Sight.
    OnSight,
    /// Shunting.
    Shunting,
    /// Level 0.
    Level0,
}

/// What an event calls for from the driver, of one kind of acknowledgement (SUBSET-026, 5.7, 5.9 and 5.10; when: this
/// project's profile).
#[derive(Clone, Copy)]
pub struct Call {
    /// The moment of the transition of the kind, in milliseconds, where the event is one.
    pub turned: Option<Ms>,
    /// Whether an area or an announcement of the kind asks for it, while its mode doesn't hold.
    pub asks: bool,
}

/// Of all kinds.
#[derive(Clone, Copy)]
pub struct Calls {
    /// Of On Sight.
    pub on_sight: Call,
    /// Of Shunting.
    pub shunting: Call,
    /// Of level 0.
    pub level_0: Call,
}

/// Of which kinds an area or an announcement is left at the end of an event.
#[derive(Clone, Copy)]
pub struct Left {
    /// Of On Sight.
    pub on_sight: bool,
    /// Of Shunting.
    pub shunting: bool,
    /// Of level 0.
    pub level_0: bool,
}
