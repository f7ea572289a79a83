//! A demand, as C gets it (`etcs_guard.h`).
ghost use Rattle.std.specs.Prelude.{◌≡◌};
ghost use Rattle.std.specs.List.{slice_get};
ghost use Rattle.track_guard.specs.Calls.{AnswersDemand, AnswersDemandIn, AnswersOne, action_number, demand_for_c, fault_number, finding_number, packet_number, place_bits, place_start, situation_by, sureness_number};

use crate::demanding::{Demand, Situation, Source, demands};
use crate::finding::{Action, Finding, Sureness};
use crate::situation::{EtcsSituation, situation_of};
use crate::status::{DONE, END, OUT_OF_RANGE};

/// In place of NID_PACKET where the whole telegram is meant.
const NO_PACKET: u32 = 256;

/// A demand, in C.
#[repr(C)]
#[derive(Clone, Copy)]
pub struct EtcsDemand {
    /// A number of `Action`.
    pub action: u32,
    /// A number of `Finding`.
    pub finding: u32,
    /// NID_PACKET; 256 for the whole telegram.
    pub packet: u32,
    /// The place of its first bit in the telegram, from 0.
    pub start: u32,
    /// L_PACKET; 0 for the whole telegram.
    pub bits: u32,
    /// Why the telegram is refused; 0 for a packet.
    pub fault: u32,
    /// The chapter of the issue.
    pub chapter: u32,
    /// The section of the chapter.
    pub section: u32,
    /// The clause of the section; 0 for all of it.
    pub clause: u32,
    /// A number of `Sureness`.
    pub sureness: u32,
}

/// The number of an action, its discriminant.
fn number_of_action(action: Action) -> u32
    ensures { result ≡ action_number action }
{
    action as u32
}

/// The number of a finding, its discriminant.
fn number_of_finding(finding: Finding) -> u32
    ensures { result ≡ finding_number finding }
{
    finding as u32
}

/// The number of a sureness, its discriminant.
fn number_of_sureness(sureness: Sureness) -> u32
    ensures { result ≡ sureness_number sureness }
{
    sureness as u32
}

/// NID_PACKET.
fn packet_of(source: &Source) -> u32
    ensures { result ≡ packet_number source.now }
{
    match source {
        Source::Packet(place) => u32::from(place.number),
        Source::Refused(_) => NO_PACKET,
    }
}

/// The place of a packet's first bit.
fn start_of(source: &Source) -> u32
    ensures { result ≡ place_start source.now }
{
    match source {
        Source::Packet(place) => place.start,
        Source::Refused(_) => 0,
    }
}

/// L_PACKET.
fn bits_of(source: &Source) -> u32
    ensures { result ≡ place_bits source.now }
{
    match source {
        Source::Packet(place) => place.length,
        Source::Refused(_) => 0,
    }
}

/// The number of a telegram's fault.
fn number_of_fault(source: &Source) -> u32
    ensures { result ≡ fault_number source.now }
{
    match source {
        Source::Packet(_) => 0,
        Source::Refused(fault) => u32::from(fault.number()),
    }
}

/// A demand in numbers.
fn for_c(demand: &Demand) -> EtcsDemand
    ensures { result ≡ demand_for_c demand.now }
{
    let section = demand.finding.section();
    EtcsDemand {
        action: number_of_action(demand.action),
        finding: number_of_finding(demand.finding),
        packet: packet_of(&demand.source),
        start: start_of(&demand.source),
        bits: bits_of(&demand.source),
        fault: number_of_fault(&demand.source),
        chapter: u32::from(section.chapter),
        section: u32::from(section.section),
        clause: u32::from(section.clause),
        sureness: number_of_sureness(demand.finding.sureness()),
    }
}

/// The demand of this index.
fn nth(demands: &[Demand], index: u32) -> Option<Demand>
    ensures { result ≡ slice_get demands.now index }
{
    let Some((demand, others)) = demands.split_first() else {
        return None;
    };
    if index == 0 {
        return Some(*demand);
    }
    nth(others, index - 1)
}

/// Writes the demand of this index.
fn answer_one(demands: &[Demand], index: u32, out: &mut EtcsDemand) -> u32
    ensures { AnswersOne (slice_get demands.now index) out.old out.new result }
{
    match nth(demands, index) {
        Some(demand) => {
            *out = for_c(&demand);
            DONE
        }
        None => END,
    }
}

/// Writes it in a situation.
fn answer_in(bytes: &[u8], situation: Situation, index: u32, out: &mut EtcsDemand) -> u32
    ensures { AnswersDemandIn bytes.now situation index out.old out.new result }
{
    let demands = demands(bytes, situation);
    answer_one(demands.as_slice(), index, out)
}

/// Writes the demand of this index, from 0 on, that a telegram makes in a situation: 0, or 38 where the list ends before it,
/// or 255 where no mode, direction or truth value has the number; then nothing is written.
pub fn demand_call(bytes: &[u8], situation: &EtcsSituation, index: u32, out: &mut EtcsDemand) -> u32
    ensures { AnswersDemand bytes.now (situation_by situation.now) index out.old out.new result }
{
    match situation_of(situation) {
        Some(situation) => answer_in(bytes, situation, index, out),
        None => OUT_OF_RANGE,
    }
}
