//! A unit, or its power-up that is under way, as C holds it.
ghost use Rattle.std.specs.Prelude.{◌≡◌, true, Some, None, IfSome, is_some};
ghost use Rattle.unit_calls.specs.Contents.{is_held};

use crate::held::Held;
use crate::raw::Raw;
use onboard::Released;
use relayed_unit::{RelayedUnit, UnitOpening};
use std::alloc::Global;
use std::mem;

/// A unit, and what it released last.
#[derive(Drop)]
pub struct Opened {
    /// The unit.
    pub unit: RelayedUnit,
    /// The last output that was released.
    pub last: Released,
}

/// What a handle holds.
#[derive(Drop)]
pub enum Content {
    /// Nothing, while a call has it.
    Nothing,
    /// A power-up that is under way.
    PowerUp(UnitOpening),
    /// A unit that is open.
    Unit(Opened),
}

/// A unit, or its power-up that is under way, as C holds it. C hands in one that is all zeros, or that an earlier call
/// left.
#[repr(C)]
#[derive(Drop)]
pub struct EtcsUnit {
    /// Where it is.
    pub raw: Raw,
    // 1 where a unit is open, or a power-up under way.
    is_open: u64,
    ghost matched: { is_open ≡ 1 → is_held raw.value ≡ true },
    ghost closed: { (is_open ≡ 1 → ⊥) → raw.value ≡ None },
}

impl EtcsUnit {
    /// Whether a unit is open, or a power-up under way.
    pub fn is_open(&self) -> bool
        ensures { result ≡ is_some self.now.raw.value }
    {
        self.is_open == 1
    }
}

// A handle with neither.
fn nothing(alloc: Global) -> EtcsUnit
    ensures { result.raw.value ≡ None }
{
    let nowhere = std::ptr::null_mut();
    let raw = Raw::of(Held::none(nowhere, alloc));
    EtcsUnit { raw, is_open: 0 }
}

/// A handle with this unit or power-up.
pub fn handle_of(content: Box<Content>) -> EtcsUnit
    requires { is_held (Some content.value) ≡ true }
    ensures { result.raw.value ≡ Some content.value }
{
    let raw = Raw::of(Held::of(content));
    EtcsUnit { raw, is_open: 1 }
}

/// Takes out what a handle holds.
pub fn taken(alloc: Global, handle: &mut EtcsUnit) -> Option<Box<Content>>
    ensures closed { handle.new.raw.value ≡ None }
    ensures some { IfSome result (λ b. handle.old.raw.value ≡ Some b.value) }
    ensures none { result ≡ None → handle.old.raw.value ≡ None }
{
    let EtcsUnit { raw, is_open } = mem::replace(handle, nothing(alloc));
    if is_open == 1 {
        Some(raw.into_held(alloc).into_box())
    } else {
        None
    }
}
