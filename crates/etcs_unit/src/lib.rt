//! What C programs call: each function is the one of `unit_calls`, `image_calls`, `packet_uses`
//! or `track_guard` of the same name with `_call`, which has the contract. A `Status` or an `Answer` is reported by its number.
//! `etcs_unit.h`, `etcs_image.h` and `etcs_guard.h` declare them.
#![tactic(auto)]

mod guard;
mod image;
mod opening;
mod telegrams;
mod unit;
