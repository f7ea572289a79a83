//! Equality of speeds and of gradients that a proof can rely on.
ghost use Rattle.std.specs.Prelude.{◌≡◌, ◌↔◌, IsTrue};

use units::{Mph, Permille};

/// A test of two values that is true exactly where they are equal. (`Eq` promises an equivalence only.)
pub trait Same {
    /// Whether two values are equal.
    fn is_same(&self, other: &Self) -> bool
        ensures { IsTrue result ↔ (self.now ≡ other.now) };
}

impl Same for Mph {
    fn is_same(&self, other: &Mph) -> bool {
        self == other
    }
}

impl Same for Permille {
    fn is_same(&self, other: &Permille) -> bool {
        self == other
    }
}
