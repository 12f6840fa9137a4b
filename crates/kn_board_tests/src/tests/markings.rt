//! Markings: one that a thread makes alone, and many in random orders of turns.
use super::collecting::{Script, Seen, are_seen, read};
use super::draws::{Draws, Markers};
use super::marks::{Found, compare};
use kn_trace::trace;
use std::alloc::{AllocError, Global};
use std::test::Fail;

/// The seeds of the random scripts.
const SEEDS: [u64; 16] = [
    1, 2, 3, 5, 8, 13, 21, 34, 55, 89, 144, 233, 377, 610, 987, 1597,
];

/// How many scripts each seed gives.
const SCRIPTS: u32 = 50;

/// The thread is in the middle of its `gc` when the stop is stored, goes out, and marks alone.
const ONE: Script = (
    "heap 1 64 0 64 0 2\nnames 0 0 0 0\nlayout fields ref int\nthreads 1\n",
    "thread 0\nnew 0 0\ngc\norder 0/1 0*3 c@stopa 0*4 c@mark 0*37\n",
);

/// The thread is out behind turn 20 and finds Mark in turn 24. The last three turns of the collector
/// before that count it, and store the count of open work and Mark; it has no turn in Mark.
#[test]
fn a_thread_that_is_out_marks_alone(rt: HostRuntime) -> Result<(), Fail> {
    let table: [(u32, Seen); 6] = [
        (10, ([0, 0, 0, 1, 0, 3], 1, false)),
        (16, ([9, 1, 0, 1, 0, 3], 1, false)),
        (23, ([10, 1, 3, 0, 0, 3], 1, true)),
        (24, ([10, 1, 3, 0, 0, 3], 1, true)),
        (59, ([10, 1, 1, 0, 7, 7], 1, true)),
        (60, ([10, 1, 0, 0, 7, 7], 1, true)),
    ];
    assert!(rt; are_seen(rt.alloc(), ONE, &table)?);
    Ok(())
}

/// What is found behind a run of the script of a text.
fn found_in(alloc: Global, text: &str) -> Result<Found, AllocError> {
    let Some(script) = read(alloc, text) else {
        return Ok(Found::Differs);
    };
    let board = trace(alloc, &script)?.board;
    compare(alloc, &script, &board)
}

/// How many of the scripts of a seed have an object condemned, where what is found behind each is right.
///
/// In every second script the collector has as many turns in Mark as it needs where nothing is left to
/// mark, so the pause comes only where the threads have marked everything.
fn condemning(alloc: Global, seed: u64) -> Result<Option<u32>, AllocError> {
    let mut draws = Draws::open(alloc, seed);
    let mut condemning = 0u32;
    for script in 0..SCRIPTS {
        let markers = if script % 2 == 0 {
            Markers::All
        } else {
            Markers::Threads
        };
        let Some(text) = draws.script(markers) else {
            return Ok(None);
        };
        match found_in(alloc, text)? {
            Found::Condemned(0) => {}
            Found::Condemned(_) => condemning = condemning.saturating_add(1),
            _ => return Ok(None),
        }
    }
    Ok(Some(condemning))
}

#[test]
fn a_marking_marks_what_is_reachable(rt: HostRuntime) -> Result<(), Fail> {
    let mut all = 0u32;
    for seed in SEEDS {
        let found = condemning(rt.alloc(), seed)?;
        assert!(rt; found.is_some(), "seed {seed}");
        all = all.saturating_add(found.unwrap_or(0));
    }
    assert!(rt; all >= 400, "{all}");
    Ok(())
}
