//! One balise as it was read: its telegram, and the odometer's sums there.
ghost use Rattle.std.specs.Prelude.{◌≡◌};

use odometry::Sums;
use telegram::Received;

/// A telegram of a balise (SUBSET-026, 8.4.2), and the sums of the life when the balise was read.
#[derive(Drop)]
pub struct Reading {
    /// The telegram of one balise.
    pub telegram: Received,
    /// The movements and the path of the life at it, in centimetres.
    pub sums: Sums,
}

impl Reading {
    /// An equal value.
    pub fn copy(&self) -> Self
        ensures { result ≡ self.now }
    {
        Reading {
            telegram: self.telegram.copy(),
            sums: self.sums,
        }
    }
}

/// A reading to be filled.
impl Default for Reading {
    fn default() -> Reading {
        Reading {
            telegram: Received::default(),
            sums: Sums::ZERO,
        }
    }
}
