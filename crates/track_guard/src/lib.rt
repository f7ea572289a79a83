//! A guard next to the kernel: what a train of SUBSET-026 issue 2.3.0 stops for, or obeys, in a telegram, and this kernel
//! skips or refuses. The table is this project's reading of the issue (`specs/Table.antt`). No call takes memory.
#![tactic(auto)]

mod demand_calls;
mod demanding;
mod finding;
mod guard;
mod guard_calls;
mod laws;
mod packet;
mod situation;
mod status;
mod table;
mod tally;

pub use demand_calls::{EtcsDemand, demand_call};
pub use demanding::{Demand, MOST_DEMANDS, Situation, Source, demands};
pub use finding::{Action, Finding, Section, Sureness};
pub use guard::{Guard, Policy};
pub use guard_calls::{EtcsGuard, acknowledge_call, begin_call, command_call, hear_call};
pub use laws::{
    all_packets_are_looked_at, each_packet_is_judged_by_itself, guard_only_adds_braking,
    refused_telegrams_are_never_silent, rows_are_demanded_and_no_others, rows_worked_by_hand,
    unknown_direction_demands_what_each_does, used_in_full_demands_nothing,
};
pub use situation::EtcsSituation;
