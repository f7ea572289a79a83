// A pointer that C may hold: of no type that C can't know.
ghost use Rattle.std.specs.Borrow.{sem};
ghost use Rattle.std.specs.Prelude.{◌≡◌, Option, Some, IsSome};
ghost use Rattle.unit_calls.specs.declared.handle.Content.{Content as ContentValue};

use crate::handle::Content;
use crate::held::Held;
use std::alloc::Global;
use std::marker::Model;

/// The pointer to a unit, or any where there is none.
#[repr(C)]
#[derive(Drop)]
pub struct Raw {
    at: *mut u8,
    pub ghost value: { Option ContentValue },
}

impl Model for Raw {
    ghost use Rattle.unit_calls.specs.Owned.{raw_owns};

    ghost also_owns = { λ r. raw_owns r.at r.value };
}

impl Raw {
    ghost use Rattle.unit_calls.specs.Lent.{LendsHeld};

    /// What is held, for C.
    pub fn of(held: Held<Content, Global>) -> Raw
        ensures { result.value ≡ held.value }
    {
        let Held { at, alloc: _ } = held;
        Raw { at: at as *mut u8 }
    }

    /// The same again.
    pub fn into_held(self, alloc: Global) -> Held<Content, Global>
        ensures { result.value ≡ self.value }
    {
        let Raw { at } = self;
        Held {
            at: at as *mut Content,
            alloc,
        }
    }

    /// What is held, where it lies. The caller owes that there is something.
    pub fn as_mut(&mut self) -> &mut Content
        requires { IsSome self.old.value }
        ensures* writes_back { sem 𝓛 (LendsHeld self.entry result) }
        ensures value { self.old.value ≡ Some result.now }
    {
        unsafe { &mut *(self.at as *mut Content) }
    }
}
