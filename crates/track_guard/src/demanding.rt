//! The demands of a telegram: one for each row of the table that applies.
ghost use Rattle.std.specs.Prelude.{◌≡◌, ◌+◌, ◌≤◌, [], ◌++◌, length};
ghost use Rattle.track_guard.specs.Demands.{Demanded, IsFaultOf, concerns as concerns_train, demand_in, demand_of_packet, demands_in, fault_found, list_of};
ghost use Rattle.track_guard.specs.Table.{action_by, table};

use crate::finding::{Action, Finding};
use crate::packet::{finding_in_packet, finding_in_refused, has_known_packets};
use crate::table::{action_elsewhere, action_of, counts_overridden, is_of_mode};
use arrayvec::ArrayVec;
use mode_table::Mode;
use telegram::TelegramFault;
use track_packets::{PacketPlace, packets_in_order};
use vars::{LinkOrientation, ValidityDirection};

/// How many demands a telegram has at most: one of each packet that is listed, and one of the telegram.
pub const MOST_DEMANDS: usize = 35;

/// NID_PACKET of infill: it and what follows it are about a group ahead.
pub(crate) const INFILL: u8 = 136;

/// The train as the telegram finds it.
#[derive(Clone, Copy)]
pub struct Situation {
    /// The mode before the event.
    pub mode: Mode,
    /// The direction in which the group is passed; None where that isn't known.
    pub direction: Option<LinkOrientation>,
    /// Whether an override is active.
    pub overridden: bool,
}

/// Where a finding is.
#[derive(Clone, Copy)]
pub enum Source {
    /// In this packet.
    Packet(PacketPlace),
    /// In the telegram, which is refused for this fault.
    Refused(TelegramFault),
}

/// What is demanded of the equipment around the unit.
#[derive(Clone, Copy)]
pub struct Demand {
    /// What is demanded.
    pub action: Action,
    /// For what: it names the row of the table, with its section and how sure that is.
    pub finding: Finding,
    /// Where it was found.
    pub source: Source,
}

/// Fills capacity that isn't in use.
impl Default for Demand {
    fn default() -> Demand {
        Demand {
            action: Action::Unreadable,
            finding: Finding::Refused,
            source: Source::Refused(TelegramFault::Truncated),
        }
    }
}

/// What the row of a finding demands, if anything.
fn demanded_action(finding: Finding, situation: Situation) -> Option<Action>
    ensures { result ≡ action_by (table finding) situation.mode situation.overridden }
{
    let counts = counts_overridden(finding) || !situation.overridden;
    if is_of_mode(finding, situation.mode) && counts {
        Some(action_of(finding))
    } else {
        action_elsewhere(finding)
    }
}

/// The demand of a finding, if there is one.
fn demand_for(finding: Finding, source: Source, situation: Situation) -> Option<Demand>
    ensures { result ≡ demand_in situation source finding }
{
    let action = demanded_action(finding, situation)?;
    Some(Demand {
        action,
        finding,
        source,
    })
}

/// Whether a packet is valid for the train, by its Q_DIR; the spare number counts as both directions.
fn concerns(valid: Option<ValidityDirection>, direction: Option<LinkOrientation>) -> bool
    ensures { result ≡ concerns_train valid direction }
{
    match (valid, direction) {
        (None | Some(ValidityDirection::Both), _) => true,
        (Some(ValidityDirection::Nominal), Some(LinkOrientation::Nominal)) => true,
        (Some(ValidityDirection::Reverse), Some(LinkOrientation::Reverse)) => true,
        _ => false,
    }
}

/// What a packet demands, if anything.
pub(crate) fn packet_demand(
    bytes: &[u8],
    place: PacketPlace,
    situation: Situation,
) -> Option<Demand>
    ensures { result ≡ demand_of_packet situation bytes.now place }
{
    if !concerns(place.direction, situation.direction) {
        return None;
    }
    let finding = finding_in_packet(bytes, place)?;
    demand_for(finding, Source::Packet(place), situation)
}

/// Adds what packets demand.
fn add_packets(
    bytes: &[u8],
    places: &[PacketPlace],
    situation: Situation,
    demands: &mut ArrayVec<Demand, MOST_DEMANDS>,
)
    requires { length demands.old.items + length places.now ≤ 35 }
    ensures { demands.new.items ≡ demands.old.items ++ demands_in situation bytes.now places.now }
{
    let Some((place, others)) = places.split_first() else {
        return;
    };
    if place.number == INFILL {
        return;
    }
    if let Some(demand) = packet_demand(bytes, *place, situation) {
        demands.push(demand);
    }
    add_packets(bytes, others, situation, demands);
}

/// Why a telegram is refused; None where bytes carry one.
pub(crate) fn fault_of(bytes: &[u8]) -> Option<TelegramFault>
    ensures { IsFaultOf bytes.now result }
{
    match telegram::packets(bytes) {
        Ok(_) => None,
        Err(fault) => Some(fault),
    }
}

/// What a telegram demands that is refused; None where it isn't.
pub(crate) fn refused_demand(
    bytes: &[u8],
    fault: Option<TelegramFault>,
    situation: Situation,
) -> Option<Demand>
    ensures { list_of result ≡ fault_found situation bytes.now fault }
{
    let fault = fault?;
    let finding = finding_in_refused(bytes, fault);
    demand_for(finding, Source::Refused(fault), situation)
}

/// Adds what a telegram demands that is refused.
fn add_refused(
    bytes: &[u8],
    fault: Option<TelegramFault>,
    situation: Situation,
    demands: &mut ArrayVec<Demand, MOST_DEMANDS>,
)
    requires { demands.old.items ≡ [] }
    ensures all { demands.new.items ≡ fault_found situation bytes.now fault }
    ensures few { length demands.new.items ≤ 1 }
{
    if let Some(demand) = refused_demand(bytes, fault, situation) {
        demands.push(demand);
    }
}

/// What a telegram demands of the equipment around the unit in this situation: first what the whole telegram demands where
/// the unit refuses it, then what its packets demand, in their order; at most one demand for each. Packets after a packet 136
/// demand nothing.
pub fn demands(bytes: &[u8], situation: Situation) -> ArrayVec<Demand, MOST_DEMANDS>
    ensures { Demanded situation bytes.now result.items }
{
    let mut demands: ArrayVec<Demand, MOST_DEMANDS> = ArrayVec::new();
    let fault = fault_of(bytes);
    add_refused(bytes, fault, situation, &mut demands);
    if has_known_packets(bytes) {
        let listing = packets_in_order(bytes);
        add_packets(bytes, listing.packets.as_slice(), situation, &mut demands);
    }
    demands
}
