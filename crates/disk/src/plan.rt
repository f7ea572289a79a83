//! What is to go wrong with a disk in memory (this project's profile).
ghost use Rattle.std.specs.Prelude.{◌≡◌};
ghost use Rattle.disk.specs.Plan.{fate_of};

/// What is to go wrong with a `Memory`. Calls of `read`, `write` and `sync` are counted from 0 since
/// the plan was made; one that is beyond the space is not counted.
#[derive(Clone, Copy)]
pub enum Plan {
    /// No call fails.
    Nothing,
    /// The call of this number answers DiskFault, once. A write then leaves the old bytes and opens its sectors.
    Fail(u64),
    /// Power is lost in the call of this number: it and all later calls answer DiskFault. If it is a write, it
    /// leaves the old bytes and opens its sectors; the later ones change nothing.
    Cut(u64),
}

/// What the plan makes of a call.
#[derive(Clone, Copy)]
pub enum Fate {
    /// It does what it is to do.
    Runs,
    /// It answers DiskFault; a write leaves the old bytes and opens its sectors.
    Fails,
    /// There is no power: it answers DiskFault, and nothing else happens.
    Dead,
}

impl Plan {
    // What becomes of the call of this number.
    pub(crate) fn fate(self, number: u64) -> Fate
        ensures { result ≡ fate_of self number }
    {
        match self {
            Plan::Nothing => Fate::Runs,
            Plan::Fail(at) => {
                if number == at {
                    Fate::Fails
                } else {
                    Fate::Runs
                }
            }
            Plan::Cut(at) => {
                if number < at {
                    Fate::Runs
                } else if number == at {
                    Fate::Fails
                } else {
                    Fate::Dead
                }
            }
        }
    }
}
