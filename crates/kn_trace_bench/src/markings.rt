//! Markings of graphs, and their times.

use crate::collecting::read;
use crate::graphs::{Marked, graphs, name_of, text_of};
use crate::runs::time_at;
use kn_base::Place;
use kn_trace::trace;
use std::alloc::Global;
use std::io;
use std::rt::Clock;
use std::time::{Duration, Instant};

/// The phase words of the stop of epoch 1, and of what comes behind its pause.
const STOP: u64 = 9;

const PAUSED: u64 = 11;

/// More turns than a run has up to its pause, of a large graph and of a small one.
const MOST_TURNS: u32 = 1_048_576;

const FEW_TURNS: u32 = 8_192;

/// Marks each graph, and prints how many turns its marking took, from the store of the stop to that of
/// the pause. A timed run is made so often, and the least and the middle of the marking's times are
/// printed.
pub fn run_markings(
    rt: &(impl AllocGlobal + Clock + Print),
    runs: usize,
    timed: bool,
) -> io::Result<()> {
    let (graphs, most) = if timed {
        (graphs(8_000, 80, 4_096), MOST_TURNS)
    } else {
        (graphs(60, 2, 128), FEW_TURNS)
    };
    for marked in graphs {
        let name = name_of(rt.alloc(), marked)?;
        let stop = first_turn(rt, marked, STOP, most)?;
        let pause = first_turn(rt, marked, PAUSED, most)?;
        let turns = pause.saturating_sub(stop);
        if timed {
            let (least, middle) = times(rt, marked, stop, pause, runs)?;
            println!(rt; "{name}: {turns} turns, {least} / {middle} microseconds")?;
        } else {
            println!(rt; "{name}: {turns} turns")?;
        }
    }
    Ok(())
}

/// The least and the middle of the microseconds that so many runs take between two of their turns.
fn times(
    rt: &(impl AllocGlobal + Clock + Print),
    marked: Marked,
    from: u32,
    to: u32,
    runs: usize,
) -> io::Result<(u64, u64)> {
    let mut before: Vec<u128> = Vec::new(rt.alloc());
    let mut whole: Vec<u128> = Vec::new(rt.alloc());
    for _ in 0..runs {
        let (time, _) = run_marked(rt, marked, from)?;
        before.push(time.as_nanos())?;
        let (time, _) = run_marked(rt, marked, to)?;
        whole.push(time.as_nanos())?;
    }
    before.sort()?;
    whole.sort()?;
    let least = time_at(&whole, 0).saturating_sub(time_at(&before, 0));
    let middle = time_at(&whole, runs / 2).saturating_sub(time_at(&before, runs / 2));
    Ok((least / 1_000, middle / 1_000))
}

/// The first turn behind which the phase word is this one or a later one; at most so many.
fn first_turn(
    rt: &(impl AllocGlobal + Clock + Print),
    marked: Marked,
    word: u64,
    most: u32,
) -> io::Result<u32> {
    let mut turn = 0u32;
    let mut step = most;
    for _ in 0..20 {
        step /= 2;
        if step == 0 {
            break;
        }
        let next = turn.saturating_add(step);
        let (_, phase) = run_marked(rt, marked, next)?;
        if phase < word {
            turn = next;
        }
    }
    Ok(turn.saturating_add(1))
}

/// Runs a graph's script with so many turns, and tells how long that took, and the phase word behind it.
fn run_marked(
    rt: &(impl AllocGlobal + Clock + Print),
    marked: Marked,
    turns: u32,
) -> io::Result<(Duration, u64)> {
    let text = text_of(rt.alloc(), marked, turns)?;
    let Some(script) = read(rt.alloc(), text.as_str()) else {
        return Ok((Duration::ZERO, 0));
    };
    let start = Instant::now(rt)?;
    let traced = trace(rt.alloc(), &script)?;
    let time = start.elapsed(rt)?;
    Ok((time, traced.board.word(Place::Phase)))
}
