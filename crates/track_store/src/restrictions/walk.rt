//! What a walk over the restrictions reads.
ghost use Rattle.std.specs.Prelude.{◌≡◌};

use crate::Restrictions;
use crate::restriction::Restriction;
use units::Cm;

impl Restrictions {
    /// The forgetting mark: no track before it counts.
    pub fn mark(&self) -> Cm
        ensures { result ≡ self.now.track.mark }
    {
        self.mark
    }

    /// The restrictions in force, each with track at or ahead of the mark.
    pub fn as_slice(&self) -> &[Restriction]
        ensures { result.now ≡ self.now.track.restrictions }
    {
        self.items.as_slice()
    }
}
