//! Taking inputs.
ghost use Rattle.std.specs.Prelude.{Option};
ghost use Rattle.driver.specs.Limits.{IsIdentity, IsRunningNumber};
ghost use Rattle.driver.specs.declared.action.Action.TheVariants.{EnterIdentity, EnterRunningNumber, EnterTrainData};
ghost use Rattle.events.specs.Limits.{AreOfATelegram};
ghost use Rattle.events.specs.declared.input.Input.{Input as an_input};
ghost use Rattle.events.specs.declared.input.Input.TheVariants.{Telegram, Odometer, Clock, Driver};
ghost use Rattle.units.specs.Limits.{IsMovement, IsMph, IsMs};
ghost use Rattle.unit_calls.specs.Contents.{OnUnit};
ghost use Rattle.unit_calls.specs.Handles.{Takes};
ghost use Rattle.unit_calls.specs.Inputs.{Describes, ActsAs, AreTrainData, train_of, action_by};

use crate::handle::{Content, EtcsUnit, Opened};
use crate::inputs::{self, EtcsTrainData};
use crate::status::{Status, of_accept};
use events::Input;
use std::alloc::Global;

// Hands an input to the unit; None is one outside its limits.
fn accept(opened: &mut Opened, alloc: Global, input: Option<Input>) -> Status
    ensures { Takes input opened.old opened.new result }
{
    match input {
        Some(input) => of_accept(opened.unit.accept(alloc, input)),
        None => Status::OutOfRange,
    }
}

// The same through a handle.
fn take(alloc: Global, unit: &mut EtcsUnit, input: Option<Input>) -> Status
    ensures { OnUnit unit.old.raw.value unit.new.raw.value result (Takes input) }
{
    on_unit!(unit, opened => accept(opened, alloc, input))
}

/// Takes the bytes that a balise sent.
pub fn telegram_call(alloc: Global, unit: &mut EtcsUnit, bytes: &[u8]) -> Status
    ensures { (reported : Option an_input) × Describes (AreOfATelegram bytes.now) (Telegram bytes.now) reported
        × OnUnit unit.old.raw.value unit.new.raw.value result (Takes reported) }
{
    take(alloc, unit, inputs::telegram(bytes))
}

/// Takes a reading of the odometer, in centimetres and metres per hour.
pub fn odometer_call(alloc: Global, unit: &mut EtcsUnit, movement: i64, speed: u32) -> Status
    ensures { (reported : Option an_input) × Describes (IsMovement movement × IsMph speed) (Odometer (record { movement = movement; speed = speed })) reported
        × OnUnit unit.old.raw.value unit.new.raw.value result (Takes reported) }
{
    take(alloc, unit, inputs::odometer(movement, speed))
}

/// Takes a moment, in milliseconds.
pub fn clock_call(alloc: Global, unit: &mut EtcsUnit, moment: u64) -> Status
    ensures { (reported : Option an_input) × Describes (IsMs moment) (Clock moment) reported
        × OnUnit unit.old.raw.value unit.new.raw.value result (Takes reported) }
{
    take(alloc, unit, inputs::clock(moment))
}

/// Takes an action of the driver, 1 to 15.
pub fn action_call(alloc: Global, unit: &mut EtcsUnit, action: u32) -> Status
    ensures { (reported : Option an_input) × ActsAs (action_by action) reported
        × OnUnit unit.old.raw.value unit.new.raw.value result (Takes reported) }
{
    take(alloc, unit, inputs::action(action))
}

/// Takes an identity that the driver enters.
pub fn identity_call(alloc: Global, unit: &mut EtcsUnit, bytes: &[u8]) -> Status
    ensures { (reported : Option an_input) × Describes (IsIdentity bytes.now) (Driver (EnterIdentity bytes.now)) reported
        × OnUnit unit.old.raw.value unit.new.raw.value result (Takes reported) }
{
    take(alloc, unit, inputs::identity(bytes))
}

/// Takes a running number that the driver enters.
pub fn running_number_call(alloc: Global, unit: &mut EtcsUnit, number: u32) -> Status
    ensures { (reported : Option an_input) × Describes (IsRunningNumber number) (Driver (EnterRunningNumber number)) reported
        × OnUnit unit.old.raw.value unit.new.raw.value result (Takes reported) }
{
    take(alloc, unit, inputs::running_number(number))
}

/// Takes train data that the driver enters.
pub fn train_data_call(alloc: Global, unit: &mut EtcsUnit, train: &EtcsTrainData) -> Status
    ensures { (reported : Option an_input) × Describes (AreTrainData train.now) (Driver (EnterTrainData (train_of train.now))) reported
        × OnUnit unit.old.raw.value unit.new.raw.value result (Takes reported) }
{
    take(alloc, unit, inputs::train_data(train))
}
