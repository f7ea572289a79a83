//! The trait of all variables, a qualifier of one bit (bool) among them, and why a number has no value.
ghost use Rattle.std.specs.Prelude.{◌≡◌, ◌<◌, ◌^◌, ◌↔◌, IsTrue, Ok, ℕ};
ghost use Rattle.bits.specs.Fitting.{HasNumber};
ghost use Rattle.bits.specs.Layout.{Codes};
ghost use Rattle.vars.specs.declared.variable.NoValue.{NoValue};

use thiserror::Error;

/// Why a number has no value of a variable (SUBSET-026, 7.5.1).
#[derive(Clone, Copy, Debug, Error)]
pub enum NoValue {
    /// The language keeps the number for later use.
    #[error("Spare")]
    Spare,
    /// The number is outside the range of the variable.
    #[error("OutOfRange")]
    OutOfRange,
}

/// A variable of the language: a number of so many bits, with a value (SUBSET-026, 7.5.1).
pub trait Variable: Sized {
    /// How its values are spelled in bits.
    ghost codes: { Codes NoValue Self };

    ghost WIDTH: { ℕ };

    /// The number of its bits, at most 15.
    const WIDTH: u32;

    /// The value of a number of its bits, or why it has none.
    fn of_number(number: u64) -> Result<Self, NoValue>
        requires { number < 2 ^ (codes).width }
        ensures { result ≡ (codes).value number };

    /// The number of the value.
    fn number(&self) -> u64
        ensures value { result ≡ (codes).number self.now }
        ensures bound { result < 2 ^ (codes).width };

    /// Whether the number is the value's own. It isn't where it is kept for another value: that of no distance, or
    /// of no length.
    fn has_own_number(&self) -> bool
        ensures { IsTrue result ↔ ((codes).value ((codes).number self.now) ≡ Ok self.now) };

    ghost width_is: { (codes).width ≡ WIDTH };

    ghost width_small: { (codes).width < 16 };
}

/// Whether the value has a number that fits the variable's bits and is its own.
#[inline]
pub fn has_number<V: Variable>(value: &V) -> bool
    ensures { IsTrue result ↔ HasNumber V.codes value.now }
{
    value.number() < 1 << V::WIDTH && value.has_own_number()
}

impl Variable for bool {
    ghost use Rattle.std.specs.Prelude.{refl};
    ghost use Rattle.std.proofs.Common.{arith};
    ghost use Rattle.vars.specs.Variables.{flag};

    ghost codes = { flag };

    ghost WIDTH = { 1 };

    const WIDTH: u32 = 1;

    fn of_number(number: u64) -> Result<bool, NoValue> {
        Ok(number == 1)
    }

    fn number(&self) -> u64 {
        u64::from(*self)
    }

    fn has_own_number(&self) -> bool {
        true
    }

    ghost width_is = { refl };

    ghost width_small = { Prim.omega arith };
}
