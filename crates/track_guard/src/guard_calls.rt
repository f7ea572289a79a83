//! A guard, as C keeps it (`etcs_guard.h`).
ghost use Rattle.std.specs.Prelude.{◌≡◌, ◌==◌, Option};
ghost use Rattle.std.specs.Option.{option_map};
ghost use Rattle.track_guard.specs.Guarding.{acknowledged, empty};
ghost use Rattle.track_guard.specs.Calls.{Becomes, Commands, Hears, HearsIn, brake_by, brake_number, flag_number, guard_by, guard_for_c, guard_from as guard_of_parts, policy_by, policy_number, situation_by};

use crate::demanding::Situation;
use crate::guard::{Guard, Policy};
use crate::situation::{EtcsSituation, flag_of, situation_of};
use crate::status::{DONE, OUT_OF_RANGE};
use events::Brake;

/// A guard, in C.
#[repr(C)]
#[derive(Clone, Copy)]
pub struct EtcsGuard {
    /// A number of `Policy`.
    pub policy: u32,
    /// The brake that it holds: 0 none, 1 service, 2 emergency.
    pub brake: u32,
    /// 1 where it has heard a telegram since the power-up.
    pub has_heard: u32,
}

/// The policy of a number.
fn policy_of(number: u32) -> Option<Policy>
    ensures { result ≡ policy_by number }
{
    match number {
        1 => Some(Policy::Strict),
        2 => Some(Policy::Warn),
        _ => None,
    }
}

/// The brake of a number.
fn brake_of(number: u32) -> Option<Brake>
    ensures { result ≡ brake_by number }
{
    match number {
        0 => Some(Brake::None),
        1 => Some(Brake::Service),
        2 => Some(Brake::Emergency),
        _ => None,
    }
}

/// The number of a brake.
fn number_of_brake(brake: Brake) -> u32
    ensures { result ≡ brake_number brake }
{
    match brake {
        Brake::None => 0,
        Brake::Service => 1,
        Brake::Emergency => 2,
    }
}

/// The number of a policy, its discriminant.
fn number_of_policy(policy: Policy) -> u32
    ensures { result ≡ policy_number policy }
{
    policy as u32
}

/// The number of a truth value.
fn number_of_flag(flag: bool) -> u32
    ensures { result ≡ flag_number flag }
{
    u32::from(flag)
}

/// The guard of its parts, where all of them have a number.
fn guard_from(
    policy: Option<Policy>,
    brake: Option<Brake>,
    has_heard: Option<bool>,
) -> Option<Guard>
    ensures { result ≡ guard_of_parts policy brake has_heard }
{
    match (policy, brake, has_heard) {
        (Some(policy), Some(brake), Some(has_heard)) => Some(Guard {
            policy,
            brake,
            has_heard,
        }),
        _ => None,
    }
}

/// The guard of three numbers.
fn guard_of(numbers: &EtcsGuard) -> Option<Guard>
    ensures { result ≡ guard_by numbers.now }
{
    let policy = policy_of(numbers.policy);
    let brake = brake_of(numbers.brake);
    let has_heard = flag_of(numbers.has_heard);
    guard_from(policy, brake, has_heard)
}

/// A guard in numbers.
fn guard_in_c(guard: &Guard) -> EtcsGuard
    ensures { result ≡ guard_for_c guard.now }
{
    EtcsGuard {
        policy: number_of_policy(guard.policy),
        brake: number_of_brake(guard.brake),
        has_heard: number_of_flag(guard.has_heard),
    }
}

/// Writes what a guard becomes, where there is one.
fn become_guard(becomes: Option<Guard>, guard: &mut EtcsGuard) -> u32
    ensures { Becomes becomes guard.old guard.new result }
{
    match becomes {
        Some(becomes) => {
            *guard = guard_in_c(&becomes);
            DONE
        }
        None => OUT_OF_RANGE,
    }
}

/// Makes the guard of a power-up, with a policy (1 strict, 2 warn): 0, or 255 for another number; then nothing changes.
pub fn begin_call(guard: &mut EtcsGuard, policy: u32) -> u32
    ensures { Becomes (option_map empty (policy_by policy)) guard.old guard.new result }
{
    let begins = policy_of(policy).map(Guard::new);
    become_guard(begins, guard)
}

/// A guard after an acknowledgement.
fn after_acknowledgement(guard: Option<Guard>, stands: bool) -> Option<Guard>
    ensures { result ≡ option_map (acknowledged stands) guard }
{
    let mut guard = guard?;
    guard.acknowledge(stands);
    Some(guard)
}

/// The driver acknowledges at a speed, in metres per hour: at 0 the guard releases its brake. 0, or 255 where the guard has
/// numbers that no call left there; then nothing changes.
pub fn acknowledge_call(guard: &mut EtcsGuard, speed: u32) -> u32
    ensures { Becomes (option_map (acknowledged (speed == 0)) (guard_by guard.old)) guard.old guard.new result }
{
    let after = after_acknowledgement(guard_of(guard), speed == 0);
    become_guard(after, guard)
}

/// Hears a telegram.
fn hear_in(
    bytes: &[u8],
    situation: Situation,
    heard: Guard,
    guard: &mut EtcsGuard,
    count: &mut u32,
) -> u32
    ensures { HearsIn bytes.now situation heard guard.new count.new result }
{
    let mut heard = heard;
    *count = heard.hear(bytes, situation);
    *guard = guard_in_c(&heard);
    DONE
}

/// Hears it where situation and guard have numbers.
fn hear_by(
    bytes: &[u8],
    situation: Option<Situation>,
    heard: Option<Guard>,
    guard: &mut EtcsGuard,
    count: &mut u32,
) -> u32
    ensures { Hears bytes.now situation heard guard.old guard.new count.old count.new result }
{
    match (situation, heard) {
        (Some(situation), Some(heard)) => hear_in(bytes, situation, heard, guard, count),
        _ => OUT_OF_RANGE,
    }
}

/// Has a guard hear a telegram, before the unit is handed it, and writes how many demands it makes (`demand_call` has each):
/// 0, or 255 where a number is none of a situation or a guard; then nothing changes.
pub fn hear_call(
    guard: &mut EtcsGuard,
    bytes: &[u8],
    situation: &EtcsSituation,
    count: &mut u32,
) -> u32
    ensures { Hears bytes.now (situation_by situation.now) (guard_by guard.old) guard.old guard.new count.old count.new result }
{
    let situation = situation_of(situation);
    let heard = guard_of(guard);
    hear_by(bytes, situation, heard, guard, count)
}

/// Writes the brake to command.
fn command_by(guard: Option<Guard>, unit: Option<Brake>, brake: &mut u32) -> u32
    ensures { Commands guard unit brake.old brake.new result }
{
    match (guard, unit) {
        (Some(guard), Some(unit)) => {
            *brake = number_of_brake(guard.command(unit));
            DONE
        }
        _ => OUT_OF_RANGE,
    }
}

/// Writes the brake to command where the unit commands this one (0 none, 1 service, 2 emergency): 0, or 255 where a number is
/// none of a guard or a brake; then nothing is written.
pub fn command_call(guard: &EtcsGuard, unit: u32, brake: &mut u32) -> u32
    ensures { Commands (guard_by guard.now) (brake_by unit) brake.old brake.new result }
{
    let guard = guard_of(guard);
    let unit = brake_of(unit);
    command_by(guard, unit, brake)
}
