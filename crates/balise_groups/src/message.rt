//! What a balise group gives at its end: its message, or why it is broken.
ghost use Rattle.std.specs.Prelude.{◌≡◌};
ghost use Rattle.balise_groups.specs.Causes.{cause_number};

use crate::group_packets::GroupPackets;
use odometry::Sums;
use vars::{GroupIdentity, LinkOrientation};

/// The message of a balise group (SUBSET-026, 3.4).
#[derive(Drop)]
pub struct Message {
    /// NID_C and NID_BG of the group.
    pub group: GroupIdentity,
    /// Q_LINK: whether the group may be announced by linking.
    pub linked: bool,
    /// The direction in which the train passed the group; None where that isn't known.
    pub direction: Option<LinkOrientation>,
    /// The movements and the path of the life, in centimetres, when its balise 1 was read, or the first that was read
    /// where balise 1 was missed.
    pub sums: Sums,
    /// Whether balise 1 was missed.
    pub missed: bool,
    /// Its packets, in order of place, of each telegram those before its first packet 136.
    pub packets: GroupPackets,
}

/// Why a group gives no message (SUBSET-026, 3.16.2; the order and the numbers: this project's profile). Where more
/// than one holds, Mixed comes before Counter, and Counter before Missing. The number of a cause is its discriminant.
#[derive(Clone, Copy, Drop)]
pub enum Cause {
    /// A balise wasn't read, and no neighbour that was read repeats it.
    Missing = 1,
    /// The message counters don't fit one another.
    Counter = 2,
    /// The telegrams don't agree in N_TOTAL or in Q_LINK.
    Mixed = 3,
}

impl Cause {
    /// The number by which a refusal is reported.
    pub fn number(self) -> u32
        ensures { result ≡ cause_number self }
    {
        self as u32
    }
}

/// A group that gave no message (SUBSET-026, 3.16.2).
#[derive(Drop)]
pub struct Broken {
    /// NID_C and NID_BG of the group.
    pub group: GroupIdentity,
    /// Q_LINK: whether the group may be announced by linking.
    pub linked: bool,
    /// The first cause that holds, Mixed before Counter before Missing.
    pub cause: Cause,
}

/// A group that has ended, whole or broken (SUBSET-026, 3.4 and 3.16.2).
#[derive(Drop)]
pub enum Closed {
    /// Its message.
    Whole(Message),
    /// No message, and why.
    Broken(Broken),
}
