//! The program: reads a script, runs its threads a turn at a time and prints their replies.
#![tactic(auto)]

use kn_commands::{exit_of, run_program};
use std::process::ExitCode;

fn main(rt: HostRuntime) -> ExitCode {
    exit_of(run_program(&rt))
}
