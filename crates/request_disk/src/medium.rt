//! What the medium holds, of which the code knows only a part.
ghost use Rattle.std.specs.Prelude.{◌≡◌, ℕ, List};
ghost use Rattle.std.specs.Borrow.{ftrue};
ghost use Rattle.request_disk.specs.Medium.{carried};

use disk::Call;
use std::marker::{Model, PhantomData};

/// The bytes of a medium, which only clauses read: it takes no memory, and its methods do nothing at run time.
#[derive(Drop)]
pub struct Medium {
    marker: PhantomData<u8>,
    pub ghost bytes: { List ℕ },
}

impl Model for Medium {
    ghost also_owns = { λ _. ftrue };
}

impl Medium {
    /// A medium of any bytes.
    pub(crate) fn of() -> Medium
        ghost bytes: { List ℕ }
        ensures { result.bytes ≡ bytes }
    {
        Medium {
            marker: PhantomData,
        }
    }

    /// The requests are carried out on it.
    pub(crate) fn carry(&mut self, _written: &[u8], _requests: &[Call])
        ensures { self.new.bytes ≡ carried _written.now self.old.bytes _requests.now }
    {}
}
