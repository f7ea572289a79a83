//! What an authority answers: its end, the speed there, and the release speed.
ghost use Rattle.std.specs.Prelude.{◌≡◌};
ghost use Rattle.authority.specs.Authority.{release_of, no_release};

use units::{Cm, Mph};
use vars::{ReleaseSpeed, SpeedStep, Variable};

/// The speed at which a train may approach the end of its authority (V_RELEASEDP, V_RELEASEOL; which of them holds:
/// this project's profile).
#[derive(Clone, Copy)]
pub enum Release {
    /// This speed, in metres per hour; 0 where there is none (126).
    Speed(Mph),
    /// The national value, V_NVREL (127).
    National,
}

impl Release {
    /// No release speed.
    pub(crate) fn none() -> Release
        ensures { result ≡ no_release }
    {
        Release::Speed(Mph::new(0).unwrap())
    }

    /// The release speed of V_RELEASEDP or V_RELEASEOL. One that is reckoned on board is 0.
    pub(crate) fn of(reported: ReleaseSpeed) -> Release
        ensures { result ≡ release_of reported }
    {
        match reported {
            ReleaseSpeed::Speed(step) => Release::Speed(step.speed()),
            ReleaseSpeed::Onboard => Release::none(),
            ReleaseSpeed::National => Release::National,
        }
    }
}

/// Up to where the train may go (SUBSET-026, 3.8).
#[derive(Clone, Copy)]
pub struct End {
    /// The end of authority, in centimetres.
    pub place: Cm,
    /// The speed allowed there, in metres per hour: V_LOA while it is in force, else 0.
    pub speed: Mph,
    /// The supervised location, in centimetres: the end of the overlap, else the danger point, else the end.
    pub location: Cm,
    /// The release speed that holds; none where a speed is allowed at the end.
    pub release: Release,
}
