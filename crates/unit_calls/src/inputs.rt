//! Inputs of the numbers and bytes that C hands in. None is reported exactly outside the limits.
ghost use Rattle.std.specs.Prelude.{◌≡◌, ◌↔◌, ◌<◌, IsSome, IfSome};
ghost use Rattle.brakes.specs.Limits.{IsDeceleration, IsReaction};
ghost use Rattle.driver.specs.Limits.{IsIdentity, IsRunningNumber};
ghost use Rattle.driver.specs.declared.action.Action.TheVariants.{EnterIdentity, EnterRunningNumber, EnterTrainData};
ghost use Rattle.events.specs.Limits.{AreOfATelegram};
ghost use Rattle.events.specs.declared.input.Input.TheVariants.{Telegram, Odometer, Clock, Driver};
ghost use Rattle.units.specs.Limits.{IsMovement, IsMph, IsMs};
ghost use Rattle.unit_calls.specs.Inputs.{AreTrainData, train_of, action_by};

use brakes::{Brakes, Deceleration, Reaction};
use driver::{Acknowledged, Action, Confirmed, DriverIdentity, RunningNumber, TrainData};
use events::{Input, Reading, TelegramBytes};
use mode_table::TrainLevel;
use units::{Length, Movement, Mph, Ms};
use vars::{TrainCategory, Variable};

/// Train data, as C hands them in.
#[repr(C)]
#[derive(Clone, Copy)]
pub struct EtcsTrainData {
    /// In centimetres.
    pub length: u32,
    /// In metres per hour.
    pub maximum: u32,
    /// In cm/s^2.
    pub deceleration: u32,
    /// In milliseconds.
    pub reaction: u32,
    /// NC_TRAIN, 0 to 15.
    pub category: u32,
}

/// The bytes of a balise.
pub fn telegram(bytes: &[u8]) -> Option<Input>
    ensures found { IsSome result ↔ AreOfATelegram bytes.now }
    ensures value { IfSome result (λ converted. converted ≡ Telegram bytes.now) }
{
    Some(Input::Telegram(TelegramBytes::new(bytes)?))
}

/// A reading of the odometer, in centimetres and metres per hour.
pub fn odometer(movement: i64, speed: u32) -> Option<Input>
    ensures found { IsSome result ↔ (IsMovement movement × IsMph speed) }
    ensures value { IfSome result (λ converted. converted ≡ Odometer (record { movement = movement; speed = speed })) }
{
    Some(Input::Odometer(Reading {
        movement: Movement::new(movement)?,
        speed: Mph::new(speed)?,
    }))
}

/// A moment in milliseconds.
pub fn clock(moment: u64) -> Option<Input>
    ensures found { IsSome result ↔ IsMs moment }
    ensures value { IfSome result (λ converted. converted ≡ Clock moment) }
{
    Some(Input::Clock(Ms::new(moment)?))
}

/// An identity.
pub fn identity(bytes: &[u8]) -> Option<Input>
    ensures found { IsSome result ↔ IsIdentity bytes.now }
    ensures value { IfSome result (λ converted. converted ≡ Driver (EnterIdentity bytes.now)) }
{
    let identity = DriverIdentity::new(bytes)?;
    Some(Input::Driver(Action::EnterIdentity(identity)))
}

/// A running number.
pub fn running_number(number: u32) -> Option<Input>
    ensures found { IsSome result ↔ IsRunningNumber number }
    ensures value { IfSome result (λ converted. converted ≡ Driver (EnterRunningNumber number)) }
{
    let number = RunningNumber::new(number)?;
    Some(Input::Driver(Action::EnterRunningNumber(number)))
}

// How a train brakes.
fn brakes_of(train: &EtcsTrainData) -> Option<Brakes>
    ensures found { IsSome result ↔ (IsDeceleration train.now.deceleration × IsReaction train.now.reaction) }
    ensures value { IfSome result (λ converted. converted ≡ record { deceleration = train.now.deceleration; reaction = train.now.reaction }) }
{
    let deceleration = u16::try_from(train.deceleration).ok()?;
    let reaction = u16::try_from(train.reaction).ok()?;
    Some(Brakes {
        deceleration: Deceleration::new(deceleration)?,
        reaction: Reaction::new(reaction)?,
    })
}

// A category by its number.
fn category_of(number: u32) -> Option<TrainCategory>
    ensures found { IsSome result ↔ (number < 16) }
    ensures value { IfSome result (λ converted. converted ≡ number) }
{
    if number >= 16 {
        return None;
    }
    TrainCategory::of_number(u64::from(number)).ok()
}

/// Train data.
pub fn train_data(train: &EtcsTrainData) -> Option<Input>
    ensures found { IsSome result ↔ AreTrainData train.now }
    ensures value { IfSome result (λ converted. converted ≡ Driver (EnterTrainData (train_of train.now))) }
{
    let data = TrainData::new(
        Length::new(u64::from(train.length))?,
        Mph::new(train.maximum)?,
        category_of(train.category)?,
        brakes_of(train)?,
    )?;
    Some(Input::Driver(Action::EnterTrainData(data)))
}

/// An action of the driver by its number, 1 to 15.
pub fn action_of(number: u32) -> Option<Action>
    ensures { result ≡ action_by number }
{
    match number {
        1 => Some(Action::ChooseLevel(TrainLevel::Level0)),
        2 => Some(Action::ChooseLevel(TrainLevel::Level1)),
        3 => Some(Action::Confirm(Confirmed::Identity)),
        4 => Some(Action::Confirm(Confirmed::RunningNumber)),
        5 => Some(Action::Confirm(Confirmed::TrainData)),
        6 => Some(Action::Confirm(Confirmed::Level)),
        7 => Some(Action::Start),
        8 => Some(Action::ChooseShunting),
        9 => Some(Action::LeaveShunting),
        10 => Some(Action::Override),
        11 => Some(Action::Acknowledge(Acknowledged::Trip)),
        12 => Some(Action::Acknowledge(Acknowledged::OnSight)),
        13 => Some(Action::Acknowledge(Acknowledged::Shunting)),
        14 => Some(Action::Acknowledge(Acknowledged::Level0)),
        15 => Some(Action::CloseDesk),
        _ => None,
    }
}

/// An action of the driver by its number, 1 to 15.
pub fn action(number: u32) -> Option<Input>
    ensures found { IsSome result ↔ IsSome (action_by number) }
    ensures value { IfSome result (λ converted. IfSome (action_by number) (λ action. converted ≡ Driver action)) }
{
    Some(Input::Driver(action_of(number)?))
}
