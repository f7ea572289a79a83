//! A line that is built in an array, so that one write prints it.
ghost use Rattle.std.specs.Prelude.{◌≡◌, ◌+◌, ◌≤◌, ◌++◌, length};
ghost use Rattle.arrayvec.specs.ArrayVec.{array_vec_len};

use arrayvec::ArrayVec;

/// Appends a text to a line, which has the capacity for it.
#[inline(always)]
pub fn append<const CAPACITY: usize>(line: &mut ArrayVec<u8, CAPACITY>, text: &[u8])
    requires { array_vec_len line.old + length text.now ≤ CAPACITY }
    ensures text { line.new.items ≡ line.old.items ++ text.now }
    ensures len { array_vec_len line.new ≡ array_vec_len line.old + length text.now }
{
    line.try_extend_from_slice(text).unwrap();
}
