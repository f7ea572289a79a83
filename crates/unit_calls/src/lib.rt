//! The unit, from its power-up on, as C programs call it: the calls after the exports of `etcs_unit`, with their
//! contracts.
#![tactic(auto)]

// What the unit of a handle answers to a call; NotOpen where it has none.
macro_rules! on_unit {
    ($handle:expr, $opened:ident => $answer:expr) => {
        if $handle.is_open() {
            match $handle.raw.as_mut() {
                Content::Unit($opened) => $answer,
                Content::Nothing | Content::PowerUp(_) => Status::NotOpen,
            }
        } else {
            Status::NotOpen
        }
    };
}

mod asking;
mod call_values;
mod driver_values;
mod events_in;
mod formatting;
mod handle;
mod held;
mod inputs;
mod laws;
mod opening;
mod outputs;
mod preview;
mod previewing;
mod raw;
mod refusals;
mod relaying;
mod sectors;
mod status;
mod version;
mod why;

pub use asking::{unit_driver_call, unit_why_call};
pub use call_values::{EtcsRequest, cold_of_number};
pub use driver_values::EtcsUnitDriver;
pub use events_in::{
    action_call, clock_call, identity_call, odometer_call, running_number_call, telegram_call,
    train_data_call,
};
pub use formatting::format_request_call;
pub use handle::{Content, EtcsUnit, Opened};
pub use inputs::EtcsTrainData;
pub use laws::{
    format_empties, handed_out_is_on_medium, on_medium_is_held, only_begin_wants_memory,
    power_up_ends,
};
pub use opening::{unit_begin_call, unit_close_call};
pub use outputs::{EtcsOutput, EtcsState};
pub use preview::{EtcsGroup, EtcsPreview};
pub use previewing::{preview_odometer_call, preview_telegram_call, unit_refusals_call};
pub use refusals::EtcsUnitRefusals;
pub use relaying::{
    done_call, prepare_call, release_call, state_call, unit_fail_call, unit_request_call,
};
pub use sectors::unit_provide_call;
pub use status::Status;
pub use version::version_call;
pub use why::EtcsUnitWhy;
