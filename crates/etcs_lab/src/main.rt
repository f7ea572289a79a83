//! The program `etcs_lab`: prints what an image of a journal holds, what of it is lost, and whether the
//! kernel answers so; and a laboratory what a telegram carries, and how one is written.
#![tactic(auto)]

mod digest;
mod event_lines;
mod examined;
mod given;
mod images;
mod packet_names;
mod program;
mod progress;
mod run;
mod running;
mod status;
mod telegrams;
mod why;

use std::io::IsTerminal;
use std::process::ExitCode;

fn main(rt: HostRuntime) -> ExitCode {
    ExitCode::from(running::run(&rt, rt.stderr().is_terminal()))
}
