//! What the track asks of a train: temporary speed restrictions (SUBSET-026, 3.11.5), and profiles of speeds and
//! gradients along it (3.7.1.1, 3.11).
#![tactic(auto)]

mod blank;
mod fact;
mod fact_store;
mod knowing;
mod profile;
mod reserving;
mod restriction;
mod restrictions;
mod same;
mod segment_store;
mod segments;
mod stretches;

pub use fact_store::FactStore;
pub use knowing::{is_known, is_known_over};
pub use profile::{MOST_STEPS, Piece, PieceBefore, Profile, ProfileStore, Step};
pub use restriction::Restriction;
pub use restrictions::Restrictions;
pub use same::Same;
pub use segment_store::SegmentStore;
pub use stretches::least_over;
