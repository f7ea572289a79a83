//! The conditions of the mode table's rows, each true or false.

/// What the rows of the mode table ask for, as an event leaves it before its change of mode (SUBSET-026, 4.6.3; the
/// conditions: this project's profile).
#[derive(Clone, Copy)]
pub struct Conditions {
    /// A movement of this event would take the path of the life or the estimated place beyond 2^40 cm.
    pub overrun: bool,
    /// Closing the desk was accepted in this event.
    pub desk_closed: bool,
    /// The trip isn't overridden, and the minimum safe front is above the end of authority while no speed is allowed
    /// there (V_LOA isn't in force), or in this event linking asks for a trip or an authority is used whose speed is 0
    /// (V_MAIN).
    pub trip: bool,
    /// The path since Staff Responsible was entered is above the distance that is allowed there (D_NVSTFF).
    pub beyond_staff_distance: bool,
    /// The level is valid, and is level 0.
    pub level_0: bool,
    /// The level is valid, and is level 1.
    pub level_1: bool,
    /// An authority is stored, its end is above the maximum safe front, and the static speed and the gradient are known
    /// at each centimetre from there up to and without that end.
    pub full: bool,
    /// An On Sight area meets a centimetre from the minimum to the maximum safe front.
    pub on_sight_area: bool,
    /// A Shunting area meets a centimetre from the minimum to the maximum safe front.
    pub shunting_area: bool,
    /// The driver's acknowledgement of a trip was accepted in this event (5.11).
    pub trip_acknowledged: bool,
    /// Override was accepted in this event (5.8).
    pub override_accepted: bool,
    /// Choosing Shunting was accepted in this event (5.6).
    pub shunting_chosen: bool,
    /// Leaving Shunting was accepted in this event (5.6).
    pub shunting_left: bool,
    /// Start was accepted in this event (5.4).
    pub started: bool,
}
