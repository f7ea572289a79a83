//! The program `etcs`: shows the telegrams of balises, makes images, runs scenarios on them, and lists their journals.
#![tactic(auto)]

mod program;
mod running;

use std::process::ExitCode;

fn main(rt: HostRuntime) -> ExitCode {
    ExitCode::from(running::run(&rt))
}
