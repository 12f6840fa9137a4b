//! The same program as `kn_run`. Its stored run is that of a bad script, which is refused with status 2.
#![tactic(auto)]

use kn_commands::{exit_of, run_program};
use std::process::ExitCode;

fn main(rt: HostRuntime) -> ExitCode {
    exit_of(run_program(&rt))
}
