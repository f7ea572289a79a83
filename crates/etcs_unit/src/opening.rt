//! The calls of `etcs_unit.h` on a unit from its power-up on.
use std::alloc::Global;
use unit_calls::{
    EtcsRequest, EtcsUnit, unit_begin_call, unit_close_call, unit_fail_call, unit_provide_call,
    unit_request_call,
};

/// Begins a power-up on a medium of so many sectors, of which none is known.
#[unsafe(no_mangle)]
pub extern "C" fn etcs_unit_begin_(
    alloc: Global,
    unit: &mut EtcsUnit,
    sectors: u64,
    cold: u32,
    abi: u32,
) -> u32 {
    unit_begin_call(alloc, unit, sectors, cold, abi).number()
}

/// Reports what is to be done next on the medium, and the bytes that it writes.
#[unsafe(no_mangle)]
pub extern "C" fn etcs_unit_request_(
    unit: &mut EtcsUnit,
    request: &mut EtcsRequest,
    bytes: &mut [u8],
) -> u32 {
    unit_request_call(unit, request, bytes).number()
}

/// Hands in what the medium holds of a sector, and goes on.
#[unsafe(no_mangle)]
pub extern "C" fn etcs_unit_provide_(
    alloc: Global,
    unit: &mut EtcsUnit,
    sector: u64,
    bytes: &[u8],
) -> u32 {
    unit_provide_call(alloc, unit, sector, bytes).number()
}

/// Says that the medium failed.
#[unsafe(no_mangle)]
pub extern "C" fn etcs_unit_fail_(alloc: Global, unit: &mut EtcsUnit) -> u32 {
    unit_fail_call(alloc, unit).number()
}

/// Closes it.
#[unsafe(no_mangle)]
pub extern "C" fn etcs_unit_close_(alloc: Global, unit: &mut EtcsUnit) -> u32 {
    unit_close_call(alloc, unit).number()
}
