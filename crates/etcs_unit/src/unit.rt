//! The calls of `etcs_unit.h`.
use c_numbers::abi_call;
use std::alloc::Global;
use unit_calls::{
    EtcsOutput, EtcsPreview, EtcsRequest, EtcsState, EtcsTrainData, EtcsUnit, EtcsUnitDriver,
    EtcsUnitRefusals, EtcsUnitWhy, action_call, clock_call, done_call, format_request_call,
    identity_call, odometer_call, prepare_call, preview_odometer_call, preview_telegram_call,
    release_call, running_number_call, state_call, telegram_call, train_data_call,
    unit_driver_call, unit_refusals_call, unit_why_call, version_call,
};

/// Takes the bytes that a balise sent.
#[unsafe(no_mangle)]
pub extern "C" fn etcs_unit_telegram_(alloc: Global, unit: &mut EtcsUnit, bytes: &[u8]) -> u32 {
    telegram_call(alloc, unit, bytes).number()
}

/// Takes a reading of the odometer, in centimetres and metres per hour.
#[unsafe(no_mangle)]
pub extern "C" fn etcs_unit_odometer_(
    alloc: Global,
    unit: &mut EtcsUnit,
    movement: i64,
    speed: u32,
) -> u32 {
    odometer_call(alloc, unit, movement, speed).number()
}

/// Takes a moment, in milliseconds.
#[unsafe(no_mangle)]
pub extern "C" fn etcs_unit_clock_(alloc: Global, unit: &mut EtcsUnit, moment: u64) -> u32 {
    clock_call(alloc, unit, moment).number()
}

/// Takes an action of the driver, 1 to 15.
#[unsafe(no_mangle)]
pub extern "C" fn etcs_unit_action_(alloc: Global, unit: &mut EtcsUnit, action: u32) -> u32 {
    action_call(alloc, unit, action).number()
}

/// Takes an identity that the driver enters.
#[unsafe(no_mangle)]
pub extern "C" fn etcs_unit_identity_(alloc: Global, unit: &mut EtcsUnit, bytes: &[u8]) -> u32 {
    identity_call(alloc, unit, bytes).number()
}

/// Takes a running number that the driver enters.
#[unsafe(no_mangle)]
pub extern "C" fn etcs_unit_running_number_(
    alloc: Global,
    unit: &mut EtcsUnit,
    number: u32,
) -> u32 {
    running_number_call(alloc, unit, number).number()
}

/// Takes train data that the driver enters.
#[unsafe(no_mangle)]
pub extern "C" fn etcs_unit_train_data_(
    alloc: Global,
    unit: &mut EtcsUnit,
    train: &EtcsTrainData,
) -> u32 {
    train_data_call(alloc, unit, train).number()
}

/// Turns what is pending into requests.
#[unsafe(no_mangle)]
pub extern "C" fn etcs_unit_prepare_(unit: &mut EtcsUnit) -> u32 {
    prepare_call(unit).number()
}

/// Says that the request that is reported is done.
#[unsafe(no_mangle)]
pub extern "C" fn etcs_unit_done_(unit: &mut EtcsUnit) -> u32 {
    done_call(unit).number()
}

/// Releases what was held back, all of it, into a buffer for eight.
#[unsafe(no_mangle)]
pub extern "C" fn etcs_unit_release_(
    unit: &mut EtcsUnit,
    outputs: &mut [EtcsOutput],
    count: &mut u32,
) -> u32 {
    release_call(unit, outputs, count).number()
}

/// Reports how far the unit is.
#[unsafe(no_mangle)]
pub extern "C" fn etcs_unit_state_(unit: &mut EtcsUnit, state: &mut EtcsState) -> u32 {
    state_call(unit, state).number()
}

/// Reports why the newest released output is what it is.
#[unsafe(no_mangle)]
pub extern "C" fn etcs_unit_why_(unit: &mut EtcsUnit, why: &mut EtcsUnitWhy) -> u32 {
    unit_why_call(unit, why).number()
}

/// Reports what the driver entered, and which actions of the driver would be accepted.
#[unsafe(no_mangle)]
pub extern "C" fn etcs_unit_driver_(unit: &mut EtcsUnit, driver: &mut EtcsUnitDriver) -> u32 {
    unit_driver_call(unit, driver).number()
}

/// Reports why each action of the driver wouldn't be accepted as the next input.
#[unsafe(no_mangle)]
pub extern "C" fn etcs_unit_refusals_(unit: &mut EtcsUnit, refusals: &mut EtcsUnitRefusals) -> u32 {
    unit_refusals_call(unit, refusals).number()
}

/// Reports what the bytes of a balise would do as the next input.
#[unsafe(no_mangle)]
pub extern "C" fn etcs_unit_preview_telegram_(
    alloc: Global,
    unit: &mut EtcsUnit,
    bytes: &[u8],
    preview: &mut EtcsPreview,
) -> u32 {
    preview_telegram_call(alloc, unit, bytes, preview).number()
}

/// Reports what a reading of the odometer would do as the next input.
#[unsafe(no_mangle)]
pub extern "C" fn etcs_unit_preview_odometer_(
    alloc: Global,
    unit: &mut EtcsUnit,
    movement: i64,
    speed: u32,
    preview: &mut EtcsPreview,
) -> u32 {
    preview_odometer_call(alloc, unit, movement, speed, preview).number()
}

/// The number of this interface.
#[unsafe(no_mangle)]
pub extern "C" fn etcs_abi() -> u32 {
    abi_call()
}

/// Writes the version of the product into a buffer.
#[unsafe(no_mangle)]
pub extern "C" fn etcs_version_(out: &mut [u8], len: &mut u32) -> u32 {
    version_call(out, len).number()
}

/// Reports what is to be done, from 0 on, to make a medium of 1 + 6 * slots sectors an empty journal: each gate is
/// closed by zeros, and then the first sector is written.
#[unsafe(no_mangle)]
pub extern "C" fn etcs_unit_format_request_(
    slots: u32,
    index: u32,
    request: &mut EtcsRequest,
    bytes: &mut [u8],
) -> u32 {
    format_request_call(slots, index, request, bytes).number()
}
