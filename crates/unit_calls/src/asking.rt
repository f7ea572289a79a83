//! What is reported of the newest event, once it is released.
ghost use Rattle.std.specs.Prelude.{◌≡◌};
ghost use Rattle.unit_calls.specs.Contents.{OnUnitInto};
ghost use Rattle.unit_calls.specs.Drivers.{AsksUnitDriver};
ghost use Rattle.unit_calls.specs.Whys.{AsksUnitWhy};

use crate::driver_values::{EtcsUnitDriver, driver_reported};
use crate::handle::{Content, EtcsUnit, Opened};
use crate::status::Status;
use crate::why::{EtcsUnitWhy, why_reported};

// Reports why the newest output of this unit is what it is, where it is released.
fn explain(opened: &Opened, why: &mut EtcsUnitWhy) -> Status
    ensures { AsksUnitWhy opened.now why.old why.new result }
{
    match opened.unit.released_state() {
        None => Status::NotReleased,
        Some(state) => {
            let event = opened.unit.events().saturating_sub(1);
            *why = why_reported(event, state);
            Status::Done
        }
    }
}

/// Why the newest released output is what it is, and what a display shows of it: NotReleased while an event is pending
/// or requests aren't released, and then nothing is written. Nothing changes.
pub fn unit_why_call(unit: &mut EtcsUnit, why: &mut EtcsUnitWhy) -> Status
    ensures { OnUnitInto (why.new ≡ why.old) unit.old.raw.value unit.new.raw.value result
        (λ before after reported. (after ≡ before) × AsksUnitWhy before why.old why.new reported) }
{
    on_unit!(unit, opened => explain(opened, why))
}

// Reports what the driver entered, where the newest output of this unit is released.
fn describe(opened: &Opened, driver: &mut EtcsUnitDriver) -> Status
    ensures { AsksUnitDriver opened.now driver.old driver.new result }
{
    match opened.unit.released_state() {
        None => Status::NotReleased,
        Some(state) => {
            *driver = driver_reported(state);
            Status::Done
        }
    }
}

/// Reports what the driver entered, and which actions of the driver would be accepted as the next event: NotReleased while
/// an event is pending or requests aren't released, and then nothing is written. Nothing changes.
pub fn unit_driver_call(unit: &mut EtcsUnit, driver: &mut EtcsUnitDriver) -> Status
    ensures { OnUnitInto (driver.new ≡ driver.old) unit.old.raw.value unit.new.raw.value result
        (λ before after reported. (after ≡ before) × AsksUnitDriver before driver.old driver.new reported) }
{
    on_unit!(unit, opened => describe(opened, driver))
}
