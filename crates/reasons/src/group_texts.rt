//! What became of a balise group, as a kind with its texts, a direction, an announcement and a reaction.
ghost use Rattle.std.specs.Prelude.{◌≡◌};
ghost use Rattle.std.specs.Option.{option_map};
ghost use Rattle.reasons.specs.GroupTexts.{accepted_kind, whole_as, whole_reported, broken_kind, broken_reaction, broken_reported, group_reported, group_name_of, group_sentence_of, group_section_of, is_accepted};

use balise_groups::{Broken, Cause, Message};
use linking::Announcement;
use track_picture::{Closing, MessageOutcome, direction_by};
use vars::{GroupIdentity, LinkOrientation, LinkReaction};

/// What became of a balise group (SUBSET-026, 3.4.4 and 3.16.2).
#[derive(Clone, Copy)]
pub enum GroupKind {
    /// It was announced, and was accepted.
    Announced,
    /// It isn't linked, and was accepted.
    NotLinked,
    /// It is linked, and was accepted since no group was announced.
    LinkingUnused,
    /// It isn't announced while others are.
    NotAnnounced,
    /// It was passed in the wrong direction.
    WrongWay,
    /// It came before the place where it is announced.
    TooEarly,
    /// A balise of it wasn't read, and no neighbour repeats it.
    Missing,
    /// Its message counters don't fit one another.
    Counter,
    /// Its telegrams don't agree in N_TOTAL or in Q_LINK.
    Mixed,
}

/// What became of a balise group, as it is reported.
#[derive(Clone, Copy)]
pub struct GroupReport {
    /// What it is.
    pub kind: GroupKind,
    /// Which group it is.
    pub group: GroupIdentity,
    /// The direction in which it was passed; None where it isn't known.
    pub direction: Option<LinkOrientation>,
    /// The number of its announcement in its list, from 0, where one is meant.
    pub announcement: Option<u8>,
    /// What linking asks for because of it, along with what it asks for groups that were missed.
    pub reaction: LinkReaction,
}

fn number_of(announced: &Option<Announcement>) -> Option<u8>
    ensures { result ≡ option_map (λ a. a.number) announced.now }
{
    match announced {
        Some(announcement) => Some(announcement.number),
        None => None,
    }
}

fn whole_as(
    message: &Message,
    kind: GroupKind,
    direction: Option<LinkOrientation>,
    announced: &Option<Announcement>,
    reaction: LinkReaction,
) -> GroupReport
    ensures { result ≡ whole_as message.now kind direction announced.now reaction }
{
    GroupReport {
        kind,
        group: message.group,
        direction,
        announcement: number_of(announced),
        reaction,
    }
}

fn accepted_kind(linked: bool, announced: &Option<Announcement>) -> GroupKind
    ensures { result ≡ accepted_kind linked announced.now }
{
    match announced {
        Some(_) => GroupKind::Announced,
        None if linked => GroupKind::LinkingUnused,
        None => GroupKind::NotLinked,
    }
}

fn whole_reported(message: &Message, outcome: &MessageOutcome) -> GroupReport
    ensures { result ≡ whole_reported message.now outcome.now }
{
    let passed = message.direction;
    let nothing = LinkReaction::NoReaction;
    match outcome {
        MessageOutcome::Accepted(announced) => {
            let kind = accepted_kind(message.linked, announced);
            let direction = direction_by(&message.direction, announced);
            whole_as(message, kind, direction, announced, nothing)
        }
        MessageOutcome::NotAnnounced => {
            whole_as(message, GroupKind::NotAnnounced, passed, &None, nothing)
        }
        MessageOutcome::WrongWay(announcement) => {
            let announced = Some(*announcement);
            whole_as(
                message,
                GroupKind::WrongWay,
                passed,
                &announced,
                LinkReaction::Trip,
            )
        }
        MessageOutcome::TooEarly(announcement) => {
            let announced = Some(*announcement);
            whole_as(
                message,
                GroupKind::TooEarly,
                passed,
                &announced,
                announcement.reaction,
            )
        }
    }
}

fn broken_kind(cause: Cause) -> GroupKind
    ensures { result ≡ broken_kind cause }
{
    match cause {
        Cause::Missing => GroupKind::Missing,
        Cause::Counter => GroupKind::Counter,
        Cause::Mixed => GroupKind::Mixed,
    }
}

fn broken_reaction(linked: bool, announced: &Option<Announcement>) -> LinkReaction
    ensures { result ≡ broken_reaction linked announced.now }
{
    if !linked {
        return LinkReaction::ServiceBrake;
    }
    match announced {
        Some(announcement) => announcement.reaction,
        None => LinkReaction::NoReaction,
    }
}

fn broken_reported(broken: &Broken, announced: &Option<Announcement>) -> GroupReport
    ensures { result ≡ broken_reported broken.now announced.now }
{
    GroupReport {
        kind: broken_kind(broken.cause),
        group: broken.group,
        direction: None,
        announcement: number_of(announced),
        reaction: broken_reaction(broken.linked, announced),
    }
}

/// What became of a group that closed, as it is reported.
pub fn group_reported(closing: &Closing) -> GroupReport
    ensures { result ≡ group_reported closing.now }
{
    match closing {
        Closing::Whole(message, outcome) => whole_reported(message, outcome),
        Closing::Broken(broken, announced) => broken_reported(broken, announced),
    }
}

/// Whether its message is used.
pub fn is_accepted(kind: GroupKind) -> bool
    ensures { result ≡ is_accepted kind }
{
    matches!(
        kind,
        GroupKind::Announced | GroupKind::NotLinked | GroupKind::LinkingUnused
    )
}

/// The name of a kind in JSON.
pub fn group_name(kind: GroupKind) -> &'static str
    ensures { result.now ≡ group_name_of kind }
{
    match kind {
        GroupKind::Announced => "announced",
        GroupKind::NotLinked => "not_linked",
        GroupKind::LinkingUnused => "linking_unused",
        GroupKind::NotAnnounced => "not_announced",
        GroupKind::WrongWay => "wrong_way",
        GroupKind::TooEarly => "too_early",
        GroupKind::Missing => "balise_missing",
        GroupKind::Counter => "counters_differ",
        GroupKind::Mixed => "telegrams_differ",
    }
}

/// What it says.
pub fn group_sentence(kind: GroupKind) -> &'static str
    ensures { result.now ≡ group_sentence_of kind }
{
    match kind {
        GroupKind::Announced => "accepted as announced",
        GroupKind::NotLinked => "accepted, not being linked",
        GroupKind::LinkingUnused => "accepted, linking not being in use",
        GroupKind::NotAnnounced => "not used, since it is not announced while others are",
        GroupKind::WrongWay => "not used, since it was passed in the wrong direction",
        GroupKind::TooEarly => "not used, since it came before the place where it is announced",
        GroupKind::Missing => "not used, since a balise of it was not read",
        GroupKind::Counter => "not used, since its message counters do not fit",
        GroupKind::Mixed => "not used, since its telegrams do not agree",
    }
}

/// The section of SUBSET-026 that it is from.
pub fn group_section(kind: GroupKind) -> &'static str
    ensures { result.now ≡ group_section_of kind }
{
    match kind {
        GroupKind::Announced | GroupKind::NotLinked => "3.4.4",
        GroupKind::LinkingUnused | GroupKind::NotAnnounced => "3.4.4",
        GroupKind::WrongWay => "3.16.2.3",
        GroupKind::TooEarly => "3.16.2",
        GroupKind::Missing | GroupKind::Counter | GroupKind::Mixed => "3.16.2",
    }
}
