//! From the readings of single balises to the messages of their groups (SUBSET-026, 3.4 and 3.16.2).
#![tactic(auto)]

mod assembler;
mod closing;
mod group_packets;
mod laws;
mod message;
mod reading;
mod readings;

pub use assembler::{Assembler, Hearing, Seen, Taken};
pub use group_packets::{GroupPackets, PacketsInTurn};
pub use laws::{
    a_group_has_one_name, each_place_counts, groups_close_so, no_group_is_left, the_first_counts,
};
pub use message::{Broken, Cause, Closed, Message};
pub use reading::Reading;
