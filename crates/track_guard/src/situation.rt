//! A situation, as C hands it in (`etcs_guard.h`).
ghost use Rattle.std.specs.Prelude.{◌≡◌, Option, Some};
ghost use Rattle.track_guard.specs.Calls.{direction_by, flag_by, mode_by_number, situation_by, situation_of as situation_of_parts};

use crate::demanding::Situation;
use mode_table::Mode;
use vars::LinkOrientation;

/// A situation, in C.
#[repr(C)]
#[derive(Clone, Copy)]
pub struct EtcsSituation {
    /// M_MODE.
    pub mode: u32,
    /// 0 reverse, 1 nominal, 2 not known.
    pub direction: u32,
    /// 0, or 1 while an override is active.
    pub overridden: u32,
}

/// The mode of a number.
fn mode_of(number: u32) -> Option<Mode>
    ensures { result ≡ mode_by_number number }
{
    if number < 256 {
        Mode::of_number(number as u8)
    } else {
        None
    }
}

/// The direction of a number.
fn direction_of(number: u32) -> Option<Option<LinkOrientation>>
    ensures { result ≡ direction_by number }
{
    match number {
        0 => Some(Some(LinkOrientation::Reverse)),
        1 => Some(Some(LinkOrientation::Nominal)),
        2 => Some(None),
        _ => None,
    }
}

/// The truth value of a number.
pub(crate) fn flag_of(number: u32) -> Option<bool>
    ensures { result ≡ flag_by number }
{
    match number {
        0 => Some(false),
        1 => Some(true),
        _ => None,
    }
}

/// The situation of its parts, where all of them have a number.
fn situation_from(
    mode: Option<Mode>,
    direction: Option<Option<LinkOrientation>>,
    overridden: Option<bool>,
) -> Option<Situation>
    ensures { result ≡ situation_of_parts mode direction overridden }
{
    match (mode, direction, overridden) {
        (Some(mode), Some(direction), Some(overridden)) => Some(Situation {
            mode,
            direction,
            overridden,
        }),
        _ => None,
    }
}

/// The situation of three numbers.
pub(crate) fn situation_of(numbers: &EtcsSituation) -> Option<Situation>
    ensures { result ≡ situation_by numbers.now }
{
    let mode = mode_of(numbers.mode);
    let direction = direction_of(numbers.direction);
    let overridden = flag_of(numbers.overridden);
    situation_from(mode, direction, overridden)
}
