//! Runs of the scripts, and their times.

ghost use Rattle.std.specs.Prelude.{◌<◌, IfOk};
ghost use Rattle.kn_script.specs.Good.{IsGoodScript};
ghost use Rattle.kn_trace.specs.Runs.{AreBuilt};

use crate::scripts::{SCRIPTS, Traced, text_of};
use kn_script::{Fault, Script, parse};
use kn_trace::trace;
use std::alloc::{AllocError, Global};
use std::io;
use std::rt::Clock;
use std::time::{Duration, Instant};

/// Runs each script so often, in turn, and prints whether its turns were spent, and in a timed run the
/// least and the middle of the nanoseconds that a turn took.
pub fn run_scripts(
    rt: &(impl AllocGlobal + Clock + Print),
    runs: usize,
    timed: bool,
) -> io::Result<()> {
    touch_memory(rt.alloc())?;
    for script in &SCRIPTS {
        let name = script.name;
        let turns = if timed { script.turns } else { 1_000 };
        let mut opens: Vec<u128> = Vec::new(rt.alloc());
        let mut runs_of: Vec<u128> = Vec::new(rt.alloc());
        let mut all_spent = true;
        for _ in 0..runs {
            let (opening, _) = run_script(rt, script, 1)?;
            let (whole, spent) = run_script(rt, script, turns)?;
            all_spent = all_spent && spent;
            opens.push(opening.as_nanos())?;
            runs_of.push(whole.as_nanos())?;
        }
        opens.sort()?;
        runs_of.sort()?;
        let told = if all_spent { "spent" } else { "ended" };
        if timed {
            let least = per_turn(&runs_of, &opens, 0, turns);
            let middle = per_turn(&runs_of, &opens, runs / 2, turns);
            println!(rt; "{name}: {turns} turns, {told}, {least} / {middle} picoseconds a turn")?;
        } else {
            println!(rt; "{name}: {turns} turns, {told}")?;
        }
    }
    Ok(())
}

/// Takes memory once, more than any run takes, and gives it back, so that the runs find it touched.
fn touch_memory(alloc: Global) -> Result<(), AllocError> {
    let _words = vec![in alloc; 1u64; 3_000_000]?;
    Ok(())
}

/// The picoseconds of a turn, by the times at a place of whole runs and of runs of one turn.
fn per_turn(runs: &[u128], opens: &[u128], at: usize, turns: u32) -> u64 {
    let run = time_at(runs, at);
    let open = time_at(opens, at);
    run.saturating_sub(open) * 1_000 / (u64::from(turns) + 1)
}

/// A time in nanoseconds, up to 1,000 seconds.
pub fn time_at(times: &[u128], at: usize) -> u64
    ensures { result < 1000000000000 }
{
    match times.get(at) {
        Some(time) => (*time % 1_000_000_000_000) as u64,
        None => 0,
    }
}

/// Runs a script with so many turns, and tells how long that took, and whether they were spent.
fn run_script(
    rt: &(impl AllocGlobal + Clock + Print),
    script: &Traced,
    turns: u32,
) -> io::Result<(Duration, bool)> {
    let text = text_of(rt.alloc(), script, turns)?;
    let Ok(script) = read(rt.alloc(), text.as_bytes()) else {
        return Ok((Duration::ZERO, false));
    };
    let start = Instant::now(rt)?;
    let traced = trace(rt.alloc(), &script)?;
    let time = start.elapsed(rt)?;
    Ok((time, traced.is_spent))
}

/// The script of a text.
fn read(alloc: Global, text: &[u8]) -> Result<Script, Fault>
    ensures good { IfOk result IsGoodScript }
    ensures built { IfOk result (λ script. AreBuilt script.threads) }
{
    match parse(alloc, text) {
        Ok(script) => Ok(script),
        Err(fault) => Err(fault),
    }
}
