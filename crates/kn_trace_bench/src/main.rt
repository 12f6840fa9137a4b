//! Measures traces: scripts whose runs have more turns than they may take are run so often, and the
//! time of a turn is that of such a run less that of a run of one turn.
//!
//! Then graphs are built and marked: the time of a marking is that of a run up to the pause less that of
//! a run up to the stop.
//!
//! Without words each script is run once with few turns, the graphs are small, and what is printed is the
//! same at each run. With the word `time` each is run many times, one script after another, and the
//! least and the middle of the times of a turn, and of the times of a marking, are printed.
#![tactic(auto)]

mod collecting;
mod graphs;
mod markings;
mod runs;
mod scripts;

use markings::run_markings;
use runs::run_scripts;
use std::rt::Env;
use std::{env, io};

/// How often each script is run without words, and in a timed run.
const ONCE: usize = 1;

const OFTEN: usize = 45;

fn main(rt: HostRuntime) -> io::Result<()> {
    let timed = is_timed(&rt)?;
    let runs = if timed { OFTEN } else { ONCE };
    run_scripts(&rt, runs, timed)?;
    run_markings(&rt, runs, timed)
}

/// Whether the first word of the program is `time`.
fn is_timed(rt: &(impl Env + AllocGlobal)) -> io::Result<bool> {
    match env::args(rt)?.nth(1) {
        Some(word) => Ok(word.as_str() == "time"),
        None => Ok(false),
    }
}
