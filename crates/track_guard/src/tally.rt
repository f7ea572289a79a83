//! How many demands a telegram makes, and the strongest brake of them, without a list.
ghost use Rattle.std.specs.Prelude.{◌≡◌, ◌+◌, ◌≤◌, [], length};
ghost use Rattle.track_guard.specs.Demands.{demands_in, packets_found};
ghost use Rattle.track_guard.specs.Guarding.{IsTally, brake_of as brake_of_action, stronger as stronger_of, tally_of, tally_with};

use crate::demanding::{Demand, INFILL, Situation, fault_of, packet_demand, refused_demand};
use crate::finding::Action;
use crate::packet::has_known_packets;
use events::Brake;
use track_packets::{PacketPlace, packets_in_order};

/// How many demands there are, and the strongest brake of them.
#[derive(Clone, Copy)]
pub struct Tally {
    /// How many demands there are.
    pub count: u32,
    /// The strongest brake of them.
    pub brake: Brake,
}

/// The stronger one of two brakes.
pub(crate) fn stronger(brake: Brake, other: Brake) -> Brake
    ensures { result ≡ stronger_of brake other }
{
    match (brake, other) {
        (Brake::Emergency, _) | (_, Brake::Emergency) => Brake::Emergency,
        (Brake::Service, _) | (_, Brake::Service) => Brake::Service,
        (Brake::None, Brake::None) => Brake::None,
    }
}

/// The brake that an action is.
fn brake_of(action: Action) -> Brake
    ensures { result ≡ brake_of_action action }
{
    match action {
        Action::Trip => Brake::Emergency,
        Action::ServiceBrake => Brake::Service,
        Action::NotObeyed | Action::Unreadable => Brake::None,
    }
}

/// No demand.
fn none() -> Tally
    ensures { result ≡ tally_of [] }
{
    Tally {
        count: 0,
        brake: Brake::None,
    }
}

/// One demand more, if there is one, before the others.
fn with(demand: Option<Demand>, others: Tally) -> Tally
    requires { others.count ≤ 34 }
    ensures all { result ≡ tally_with demand others }
    ensures few { result.count ≤ others.count + 1 }
{
    match demand {
        Some(demand) => Tally {
            count: others.count + 1,
            brake: stronger(brake_of(demand.action), others.brake),
        },
        None => others,
    }
}

/// Those of packets.
fn tally_packets(bytes: &[u8], places: &[PacketPlace], situation: Situation) -> Tally
    requires { length places.now ≤ 34 }
    ensures all { result ≡ tally_of (demands_in situation bytes.now places.now) }
    ensures few { result.count ≤ length places.now }
{
    let Some((place, others)) = places.split_first() else {
        return none();
    };
    if place.number == INFILL {
        return none();
    }
    let tally = tally_packets(bytes, others, situation);
    with(packet_demand(bytes, *place, situation), tally)
}

/// Those of the packets of a telegram that are looked at.
fn tally_found(bytes: &[u8], situation: Situation) -> Tally
    ensures all { result ≡ tally_of (demands_in situation bytes.now (packets_found bytes.now)) }
    ensures few { result.count ≤ 34 }
{
    if !has_known_packets(bytes) {
        return none();
    }
    let listing = packets_in_order(bytes);
    tally_packets(bytes, listing.packets.as_slice(), situation)
}

/// Those of a telegram: of the whole telegram, where it is refused, and of its packets.
pub(crate) fn count_demands(bytes: &[u8], situation: Situation) -> Tally
    ensures { IsTally situation bytes.now result }
{
    let fault = fault_of(bytes);
    let found = tally_found(bytes, situation);
    with(refused_demand(bytes, fault, situation), found)
}
