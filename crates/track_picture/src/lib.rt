//! What the track sends to the train and where the train is: the balise groups that were read, what they announce, the
//! authority, the profiles of the track, the restrictions, the mode areas and the national values, for every list of
//! events of one life (SUBSET-026, 3; the order of one event: this project's profile). Distances are centimetres,
//! speeds metres per hour, moments milliseconds.
#![tactic(auto)]

mod asking;
mod closing;
mod closings;
mod column;
mod ending;
mod fixing;
mod happened;
mod hearing;
mod laws;
mod looking;
mod parts;
mod receiving;
mod reserving;
mod state;
mod stores;
mod using;

pub use closing::direction_by;
pub use closings::{Closing, Closings, MessageOutcome};
pub use ending::{
    counts_while_not_ended, each_by_its_line, ended_counts_no_more, modes_delete_by_the_table,
    none_at_power_up, only_latest_counts, place_is_read,
};
pub use happened::Happened;
pub use hearing::TelegramOutcome;
pub use laws::telegrams_are_carried;
pub use state::TracksideOver;
pub use stores::{Facts, ProfileStores, Segments};
pub use using::{is_valid, valid_in};
