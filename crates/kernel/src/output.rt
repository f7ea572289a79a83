//! What is answered.
ghost use Rattle.std.specs.Prelude.{◌≡◌};
ghost use Rattle.kernel.specs.Output.{where_valid, indications_of, output_of};
ghost use Rattle.kernel.specs.StandsFor.{StandsForLife};
ghost use Rattle.mode_control.specs.Life.{Life};

use crate::state::StateOver;
use driver::Datum;
use events::{Indications, Output};
use mode_table::TrainLevel;
use track_picture::ProfileStores;

fn where_valid(level: &Datum<TrainLevel>) -> Option<TrainLevel>
    ensures { result ≡ where_valid level.now }
{
    match level {
        Datum::Valid(level) => Some(*level),
        Datum::Unknown | Datum::Invalid(_) => None,
    }
}

impl<T: ProfileStores> StateOver<T> {
    // What the driver is shown.
    fn indications(&self) -> Indications
        ensures { (life : Life) → StandsForLife T.stores self.now life → result ≡ indications_of life }
    {
        let driver = self.supervision.driver();
        Indications {
            on_sight: self.supervision.on_sight().waits(),
            shunting: self.supervision.shunting().waits(),
            level_0: self.supervision.level_0().waits(),
            trip: driver.is_trip_outstanding(),
            overridden: self.supervision.is_overridden(),
            not_revalidated: !driver.is_revalidated(),
            overspeed: self.parts.limit.get() < self.supervision.track().speed().get(),
        }
    }

    /// What is answered after the last event.
    pub fn output(&self) -> Output
        ensures { (life : Life) → StandsForLife T.stores self.now life → result ≡ output_of life }
    {
        Output {
            mode: self.supervision.mode(),
            level: where_valid(&self.supervision.driver().level()),
            brake: self.brake(),
            limit: self.parts.limit,
            indications: self.indications(),
        }
    }
}
