//! The packets of a balise telegram, read from its bits and written (SUBSET-026, 7.4.2).
#![tactic(auto)]

/// What was answered. An error ends the calling function with it: as `?` does, which takes a proof half as long again.
#[macro_export]
macro_rules! ok {
    ($answer:expr) => {
        match $answer {
            Ok(value) => value,
            Err(error) => return Err(error),
        }
    };
}

mod authority;
mod decoding;
mod element;
mod encoding;
mod fault;
mod fitting;
mod gradients;
mod heads;
mod laws;
mod level_transition;
mod limits;
mod linking;
mod mode_profile;
mod national;
mod packet;
mod reading;
mod restrictions;
mod sink;
mod static_speeds;
mod walk;

pub use authority::{DangerPoint, EndTimer, MovementAuthority, Overlap, Section, SectionTimer};
pub use decoding::{one_spelling, read_numbered, read_packet};
pub use encoding::{hand_packet, write_packet};
pub use fault::PacketFault;
pub use gradients::{Gradient, Gradients};
pub use laws::sinks_take_packet_fields;
pub use level_transition::{LevelOrder, LevelTransition};
pub use limits::TELEGRAM_BYTES;
pub use linking::{Link, Linking};
pub use mode_profile::{ModeArea, ModeProfile};
pub use national::NationalValues;
pub use packet::{Other, Packet};
pub use restrictions::{RestrictionRevocation, SpeedRestriction};
pub use sink::{FieldSink, put};
pub use static_speeds::{Difference, StaticSpeeds, StaticStep};
