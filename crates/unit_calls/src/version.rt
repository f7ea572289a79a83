//! Which library this is.
ghost use Rattle.std.specs.Prelude.{◌≡◌};
ghost use Rattle.unit_calls.specs.Versions.{DescribesVersion};

use crate::status::Status;

/// How many bytes the version has.
const VERSION_BYTES: usize = 5;

/// Writes the version of the product into a buffer, and how many bytes it has.
pub fn version_call(out: &mut [u8], len: &mut u32) -> Status
    ensures { DescribesVersion out.old out.new len.old len.new result }
{
    if out.len() < VERSION_BYTES {
        return Status::NoRoom;
    }
    out[..VERSION_BYTES].copy_from_slice(b"0.1.0");
    *len = 5;
    Status::Done
}
