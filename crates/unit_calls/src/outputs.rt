//! Outputs, as C gets them.
ghost use Rattle.std.specs.Prelude.{◌≡◌, ◌≤◌, length};
ghost use Rattle.unit_calls.specs.Outputs.{description_of, AreHanded};

use c_numbers::{brake_number, level_number};
use events::Output;
use onboard::Released;

/// An output that may reach the train.
#[repr(C)]
#[derive(Clone, Copy)]
pub struct EtcsOutput {
    /// The number of its event, from 0 on.
    pub event: u64,
    /// In metres per hour.
    pub limit: u32,
    /// M_MODE (SUBSET-026, 7.5.1).
    pub mode: u8,
    /// 0, 1, or 255 where it isn't valid.
    pub level: u8,
    /// 0 none, 1 service, 2 emergency.
    pub brake: u8,
    /// The sum of the indications.
    pub indications: u8,
}

/// How far a unit is.
#[repr(C)]
#[derive(Clone, Copy)]
pub struct EtcsState {
    /// The last output that was released.
    pub last: EtcsOutput,
    /// How many requests the list has.
    pub requests: u64,
    /// How many of them are done.
    pub done: u64,
    /// How many outputs are held back.
    pub held: u64,
    /// 1 where the medium failed, or the unit did.
    pub has_failed: u64,
    /// How many events are pending.
    pub pending: u64,
    /// The last moment of the life, in milliseconds.
    pub moment: u64,
    /// Where the train's front is thought to be, in centimetres from where the life began.
    pub estimate: i64,
    /// How far that may be wrong to either side, in centimetres.
    pub uncertainty: u64,
}

/// The output of the event of this number, as C sees it.
pub fn output_reported(event: u64, output: Output) -> EtcsOutput
    ensures { result ≡ description_of (record { number = event; output = output }) }
{
    EtcsOutput {
        event,
        limit: output.limit.get(),
        mode: output.mode.number(),
        level: level_number(output.level),
        brake: brake_number(output.brake),
        indications: output.indications.number(),
    }
}

/// As C sees it.
pub fn description_of(released: &Released) -> EtcsOutput
    ensures { result ≡ description_of released.now }
{
    output_reported(released.event(), released.output())
}

/// Writes what was released into the first places. The caller owes a place for each.
pub fn hand_out(released: &[Released], outputs: &mut [EtcsOutput])
    requires { length released.now ≤ length outputs.old }
    ensures { AreHanded released.now outputs.old outputs.new }
{
    for i in 0..released.len() {
        outputs[i] = description_of(&released[i]);
    }
}
