//! What the unit does with each packet of a telegram: whether it uses it in a mode and a direction, and why not; the
//! words of it for people and as JSON (this project's profile). No call takes memory.
#![tactic(auto)]

mod calls;
mod description;
mod fate;
mod laws;
mod never;
mod texts;

pub use calls::{EtcsPacket, unused_call};
pub use description::{MOST_REPORTED, ReportedPacket, reported_packets};
pub use fate::{Fate, fate_of};
pub use laws::{never_used_is_so, reported_as_used_is_used};
pub use never::never_used_packets;
pub use texts::{name_pieces, number_pieces, place_pieces, why_piece};
