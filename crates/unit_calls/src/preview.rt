//! What a telegram or a movement would do as the next input, as C gets it.
ghost use Rattle.std.specs.Prelude.{◌≡◌, IfOk, IsOk, List, length, map};
ghost use Rattle.events.specs.declared.input.Event.{Event as AnEvent};
ghost use Rattle.events.specs.declared.input.Event.TheVariants as an_event;
ghost use Rattle.kernel.specs.Lives.{life_of};
ghost use Rattle.kernel.specs.Quiet.{HasNoTrack, HasSpaceFor};
ghost use Rattle.track_picture.specs.Closings.{all_of};
ghost use Rattle.track_picture.specs.Stores.{segment_stores};
ghost use Rattle.unit_calls.specs.Previews.{group_kind, direction_number, group_by, group_of, places_of, telegram_number, fault_number, IsTelegramOf, DescribesPreview};
ghost use Rattle.unit_start.specs.Events.{Knows};
ghost use Rattle.vars.specs.Values.{reaction_number};

use balise_groups::Hearing;
use c_numbers::flag;
use events::{Event, Input};
use kernel::State;
use reasons::{GroupKind, GroupReport, group_reported};
use std::alloc::Global;
use track_picture::{Closing, Closings, TelegramOutcome};
use units::NoMemory;
use vars::{LinkOrientation, LinkReaction, Variable};

/// A balise group that an input closes, and what becomes of it.
#[repr(C)]
#[derive(Clone, Copy)]
pub struct EtcsGroup {
    /// NID_C.
    pub country: u32,
    /// NID_BG.
    pub group: u32,
    /// What becomes of it, 1 to 9.
    pub outcome: u8,
    /// The direction in which it was passed: 0 reverse, 1 nominal, 2 not known.
    pub direction: u8,
    /// What linking asks for because of it, Q_LINKREACTION.
    pub reaction: u8,
    /// 1 where an announcement is meant.
    pub has_announcement: u8,
    /// Its number in its list, from 0.
    pub announcement: u8,
    /// 0.
    pub reserved: [u8; 3],
}

/// No group.
const NO_GROUP: EtcsGroup = EtcsGroup {
    country: 0,
    group: 0,
    outcome: 0,
    direction: 0,
    reaction: 0,
    has_announcement: 0,
    announcement: 0,
    reserved: [0; 3],
};

/// What an input would do as the next one.
#[repr(C)]
#[derive(Clone, Copy)]
pub struct EtcsPreview {
    /// The groups that it closes, in their order; the places after them are 0.
    pub groups: [EtcsGroup; 2],
    /// How many they are.
    pub count: u8,
    /// What becomes of a telegram, 1 to 4; 0 of another input.
    pub telegram: u8,
    /// Why bytes carry no telegram, 1 to 9; else 0.
    pub fault: u8,
    /// 0.
    pub reserved: u8,
}

fn group_kind(kind: GroupKind) -> u8
    ensures { result ≡ group_kind kind }
{
    match kind {
        GroupKind::Announced => 1,
        GroupKind::NotLinked => 2,
        GroupKind::LinkingUnused => 3,
        GroupKind::NotAnnounced => 4,
        GroupKind::WrongWay => 5,
        GroupKind::TooEarly => 6,
        GroupKind::Missing => 7,
        GroupKind::Counter => 8,
        GroupKind::Mixed => 9,
    }
}

fn direction_number(direction: Option<LinkOrientation>) -> u8
    ensures { result ≡ direction_number direction }
{
    match direction {
        Some(LinkOrientation::Reverse) => 0,
        Some(LinkOrientation::Nominal) => 1,
        None => 2,
    }
}

// Q_LINKREACTION.
fn reaction_number(reaction: LinkReaction) -> u8
    ensures { result ≡ reaction_number reaction }
{
    match reaction {
        LinkReaction::Trip => 0,
        LinkReaction::ServiceBrake => 1,
        LinkReaction::NoReaction => 2,
    }
}

// A group as C sees it.
fn group_by(reported: GroupReport) -> EtcsGroup
    ensures { result ≡ group_by reported }
{
    EtcsGroup {
        country: reported.group.country.number() as u32,
        group: reported.group.number.number() as u32,
        outcome: group_kind(reported.kind),
        direction: direction_number(reported.direction),
        reaction: reaction_number(reported.reaction),
        has_announcement: flag(reported.announcement),
        announcement: reported.announcement.unwrap_or(0),
        reserved: [0; 3],
    }
}

fn group_of(closing: &Closing) -> EtcsGroup
    ensures { result ≡ group_of closing.now }
{
    group_by(group_reported(closing))
}

// The groups in their places.
fn places_of(closings: &Closings) -> [EtcsGroup; 2]
    ensures { result ≡ places_of (map group_of (all_of closings.now)) }
{
    match (&closings.ended, &closings.whole) {
        (Some(ended), Some(whole)) => [group_of(ended), group_of(whole)],
        (Some(one), None) | (None, Some(one)) => [group_of(one), NO_GROUP],
        (None, None) => [NO_GROUP, NO_GROUP],
    }
}

// How many groups they are.
fn count_of(closings: &Closings) -> u8
    ensures { result ≡ length (all_of closings.now) }
{
    match (&closings.ended, &closings.whole) {
        (Some(_), Some(_)) => 2,
        (Some(_), None) | (None, Some(_)) => 1,
        (None, None) => 0,
    }
}

fn telegram_number(outcome: TelegramOutcome) -> u8
    ensures { result ≡ telegram_number outcome }
{
    match outcome {
        TelegramOutcome::Heard(Hearing::Counts) => 1,
        TelegramOutcome::Heard(Hearing::GroupClosed) => 2,
        TelegramOutcome::Heard(Hearing::PlaceRead) => 3,
        TelegramOutcome::NoTelegram(_) => 4,
    }
}

fn fault_number(outcome: TelegramOutcome) -> u8
    ensures { result ≡ fault_number outcome }
{
    match outcome {
        TelegramOutcome::Heard(_) => 0,
        TelegramOutcome::NoTelegram(fault) => fault.number(),
    }
}

// What becomes of an input by itself: of a telegram its number, and that of its fault.
fn telegram_of(state: &State, input: &Input) -> (u8, u8)
    ensures { (events : List AnEvent) → Knows state.now events → IsTelegramOf (life_of events) input.now result.0 result.1 }
{
    match input {
        Input::Telegram(bytes) => {
            let outcome = state.outcome_of(bytes.as_slice());
            (telegram_number(outcome), fault_number(outcome))
        }
        Input::Odometer(_) | Input::Clock(_) | Input::Driver(_) => (0, 0),
    }
}

/// What an input would do after the events that a state represents; NoMemory where two groups close and memory is
/// refused for a copy of what is known.
pub fn previewed(alloc: Global, state: &State, input: Input) -> Result<EtcsPreview, NoMemory>
    ensures describes { (events : List AnEvent) → Knows state.now events → IfOk result (DescribesPreview (life_of events) input) }
    ensures quiet { HasNoTrack segment_stores state.now → HasSpaceFor segment_stores state.now (an_event.Input input) → IsOk result }
{
    let (telegram, fault) = telegram_of(state, &input);
    let closings = state.closings_by(alloc, &Event::Input(input))?;
    Ok(EtcsPreview {
        groups: places_of(&closings),
        count: count_of(&closings),
        telegram,
        fault,
        reserved: 0,
    })
}
