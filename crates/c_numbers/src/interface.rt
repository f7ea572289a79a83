//! The interface.
ghost use Rattle.std.specs.Prelude.{◌≡◌};
ghost use Rattle.c_numbers.specs.Numbers.{this_abi};

/// The number of this interface, counted up with each change that a caller can see.
pub const ABI: u32 = 6;

/// The number of this interface.
pub fn abi_call() -> u32
    ensures { result ≡ this_abi }
{
    ABI
}
