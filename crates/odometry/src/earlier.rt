//! The front's place at a past moment and its uncertainty, as the last fix gives them.
use units::{Cm, GroupPlace};

/// Where the front was thought to be at a moment of the life, reckoned from the last fix, and how far that may be wrong
/// to either side (this project's profile, in the words of SUBSET-026, 3.6.4).
#[derive(Clone, Copy)]
pub struct EarlierPlace {
    /// Where the front was thought to be, in centimetres of the life.
    pub estimate: GroupPlace,
    /// How far that may be wrong to either side, in centimetres.
    pub uncertainty: Cm,
}
