//! The calls of `etcs_guard.h`.
use track_guard::{
    EtcsDemand, EtcsGuard, EtcsSituation, acknowledge_call, begin_call, command_call, demand_call,
    hear_call,
};

/// Makes the guard of a power-up.
#[unsafe(no_mangle)]
pub extern "C" fn etcs_guard_begin_(guard: &mut EtcsGuard, policy: u32) -> u32 {
    begin_call(guard, policy)
}

/// Hears a telegram, and counts its demands.
#[unsafe(no_mangle)]
pub extern "C" fn etcs_guard_hear_(
    guard: &mut EtcsGuard,
    bytes: &[u8],
    situation: &EtcsSituation,
    count: &mut u32,
) -> u32 {
    hear_call(guard, bytes, situation, count)
}

/// Writes a demand of a telegram, from 0 on.
#[unsafe(no_mangle)]
pub extern "C" fn etcs_guard_demand_(
    bytes: &[u8],
    situation: &EtcsSituation,
    index: u32,
    demand: &mut EtcsDemand,
) -> u32 {
    demand_call(bytes, situation, index, demand)
}

/// The driver acknowledges at a speed.
#[unsafe(no_mangle)]
pub extern "C" fn etcs_guard_acknowledge_(guard: &mut EtcsGuard, speed: u32) -> u32 {
    acknowledge_call(guard, speed)
}

/// Writes the brake to command.
#[unsafe(no_mangle)]
pub extern "C" fn etcs_guard_command_(guard: &EtcsGuard, unit_brake: u32, brake: &mut u32) -> u32 {
    command_call(guard, unit_brake, brake)
}
