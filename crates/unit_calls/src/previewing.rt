//! What is reported of the next input before it is handed in.
ghost use Rattle.std.specs.Prelude.{◌≡◌, Option};
ghost use Rattle.events.specs.Limits.{AreOfATelegram};
ghost use Rattle.events.specs.declared.input.Input.{Input as an_input};
ghost use Rattle.events.specs.declared.input.Input.TheVariants.{Telegram, Odometer};
ghost use Rattle.units.specs.Limits.{IsMovement, IsMph};
ghost use Rattle.unit_calls.specs.Contents.{OnUnitInto};
ghost use Rattle.unit_calls.specs.Inputs.{Describes};
ghost use Rattle.unit_calls.specs.Previews.{Previews};
ghost use Rattle.unit_calls.specs.Refusals.{ReportsRefusals};

use crate::handle::{Content, EtcsUnit, Opened};
use crate::inputs;
use crate::preview::{EtcsPreview, previewed};
use crate::refusals::{EtcsUnitRefusals, refusals_reported};
use crate::status::Status;
use events::Input;
use std::alloc::Global;
use units::NoMemory;

// Reports what an input would do as the next one of this unit; None is one outside its limits.
fn preview(
    opened: &Opened,
    alloc: Global,
    input: Option<Input>,
    reported: &mut EtcsPreview,
) -> Status
    ensures { Previews input opened.now reported.old reported.new result }
{
    let Some(input) = input else {
        return Status::OutOfRange;
    };
    match previewed(alloc, opened.unit.accepted_state(), input) {
        Ok(found) => {
            *reported = found;
            Status::Done
        }
        Err(NoMemory) => Status::NoMemory,
    }
}

// The same through a handle.
fn preview_on(
    alloc: Global,
    unit: &mut EtcsUnit,
    input: Option<Input>,
    reported: &mut EtcsPreview,
) -> Status
    ensures { OnUnitInto (reported.new ≡ reported.old) unit.old.raw.value unit.new.raw.value result
        (λ before after status. (after ≡ before) × Previews input before reported.old reported.new status) }
{
    on_unit!(unit, opened => preview(opened, alloc, input, reported))
}

/// What becomes of the bytes that a balise sent, and of the groups that they close, if they are the next input. Nothing
/// changes.
pub fn preview_telegram_call(
    alloc: Global,
    unit: &mut EtcsUnit,
    bytes: &[u8],
    reported: &mut EtcsPreview,
) -> Status
    ensures { (input : Option an_input) × Describes (AreOfATelegram bytes.now) (Telegram bytes.now) input
        × OnUnitInto (reported.new ≡ reported.old) unit.old.raw.value unit.new.raw.value result
        (λ before after status. (after ≡ before) × Previews input before reported.old reported.new status) }
{
    preview_on(alloc, unit, inputs::telegram(bytes), reported)
}

/// What becomes of the group that a reading of the odometer closes, if it is the next input. Nothing changes.
pub fn preview_odometer_call(
    alloc: Global,
    unit: &mut EtcsUnit,
    movement: i64,
    speed: u32,
    reported: &mut EtcsPreview,
) -> Status
    ensures { (input : Option an_input) × Describes (IsMovement movement × IsMph speed) (Odometer (record { movement = movement; speed = speed })) input
        × OnUnitInto (reported.new ≡ reported.old) unit.old.raw.value unit.new.raw.value result
        (λ before after status. (after ≡ before) × Previews input before reported.old reported.new status) }
{
    preview_on(alloc, unit, inputs::odometer(movement, speed), reported)
}

// Reports why actions of the driver wouldn't be accepted by this unit.
fn refuse(opened: &Opened, reported: &mut EtcsUnitRefusals) -> Status
    ensures { ReportsRefusals opened.now reported.new result }
{
    *reported = refusals_reported(opened.unit.accepted_state());
    Status::Done
}

/// Why each action of the driver wouldn't be accepted as the next input. Nothing changes.
pub fn unit_refusals_call(unit: &mut EtcsUnit, reported: &mut EtcsUnitRefusals) -> Status
    ensures { OnUnitInto (reported.new ≡ reported.old) unit.old.raw.value unit.new.raw.value result
        (λ before after status. (after ≡ before) × ReportsRefusals before reported.new status) }
{
    on_unit!(unit, opened => refuse(opened, reported))
}
