//! The telegram of a balise: its header and its packets (SUBSET-026, 8.4.2).
#![tactic(auto)]

mod decoding;
mod encoding;
mod fault;
mod gathered;
mod header;
mod laws;
mod message;
mod place;
mod received;
mod validation;
mod walk;

pub use decoding::{decode, decode_into};
pub use encoding::{TooLong, encode};
pub use fault::TelegramFault;
pub use gathered::{Gathered, PacketsOfEach};
pub use header::{HEADER_BITS, Header};
pub use laws::{
    at_most_33_packets, packets_stand_in_place, sinks_take_header_fields, telegrams_spelled_once,
};
pub use message::Telegram;
pub use place::PacketInPlace;
pub use received::Received;
pub use validation::packets;
pub use walk::Packets;
