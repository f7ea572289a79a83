//! Space for all that the groups of an event may add, so that after it nothing can be refused.
ghost use Rattle.std.specs.Prelude.{◌≡◌, ◌≤◌, IsOk, OnOk, OnErr};
ghost use Rattle.track_picture.specs.StandsFor.{Life, space_in};
ghost use Rattle.track_picture.specs.Columns.{StandsForColumns};

use crate::state::TracksideOver;
use crate::stores::ProfileStores;
use track_store::ProfileStore;
use units::NoMemory;

impl<T: ProfileStores> TracksideOver<T> {
    // For how many packets there is space.
    fn space(&self) -> usize
        ensures { result ≡ space_in T.stores self.now }
    {
        let profiles = self.gradients.space().min(self.speeds.space());
        self.restrictions.space().min(profiles)
    }

    // Makes space for so many packets in both profiles; where memory is refused, nothing changes.
    fn make_space_for_profiles(&mut self, packets: usize) -> Result<(), NoMemory>
        ensures space { OnOk result ((packets ≤ T.stores.gradients_space self.new.gradients)
            × (packets ≤ T.stores.speeds_space self.new.speeds)) }
        ensures profiles { OnOk result ((T.stores.gradients self.new.gradients ≡ T.stores.gradients self.old.gradients)
            × (T.stores.speeds self.new.speeds ≡ T.stores.speeds self.old.speeds)) }
        ensures others { OnOk result ((self.new.parts ≡ self.old.parts) × (self.new.restrictions ≡ self.old.restrictions)) }
        ensures err { OnErr result (self.new ≡ self.old) }
    {
        let before = self.gradients.space();
        self.gradients.make_space(packets)?;
        match self.speeds.make_space(packets) {
            Ok(()) => Ok(()),
            Err(refused) => {
                self.gradients.limit_space(before);
                Err(refused)
            }
        }
    }

    /// Makes space for so many packets, unless there is space for them: then, and where memory is refused, nothing
    /// changes.
    pub(crate) fn make_space(&mut self, packets: usize) -> Result<(), NoMemory>
        ensures quiet { packets ≤ space_in T.stores self.old → IsOk result }
        ensures same { packets ≤ space_in T.stores self.old → self.new ≡ self.old }
        ensures space { OnOk result (packets ≤ space_in T.stores self.new) }
        ensures parts { OnOk result (self.new.parts ≡ self.old.parts) }
        ensures stands { OnOk result ((life : Life) → StandsForColumns T.stores self.old life
            → StandsForColumns T.stores self.new life) }
        ensures err { OnErr result (self.new ≡ self.old) }
    {
        if packets <= self.space() {
            return Ok(());
        }
        let before = self.restrictions.space();
        self.restrictions.make_space(packets)?;
        match self.make_space_for_profiles(packets) {
            Ok(()) => Ok(()),
            Err(refused) => {
                self.restrictions.limit_space(before);
                Err(refused)
            }
        }
    }
}
