ghost use Rattle.std.specs.Prelude.{◌≡◌, ◌≤◌, length, sum_by};
ghost use Rattle.kn_graph.specs.Counts.{births_among};
ghost use Rattle.kn_script.specs.Scripts.{counts_of};
ghost use Rattle.kn_script.specs.Progress.{sizes_of};

use crate::scripts::Calls;
use kn_base::{MOST_CALLS, MOST_THREADS, Sizes};
use kn_graph::Call;
use kn_lines::{FrameSizes, NameCounts};

/// The sizes of these frames and names, which count the calls and births of these threads.
pub fn make_sizes(frames: FrameSizes, names: NameCounts, threads: &[Calls]) -> Sizes
    requires threads { length threads.now ≤ MOST_THREADS }
    requires calls { sum_by length threads.now ≤ MOST_CALLS }
    ensures { result ≡ sizes_of frames names threads.now }
{
    Sizes {
        small: frames.small,
        small_words: frames.small_words,
        large: frames.large,
        large_words: frames.large_words,
        extra: frames.extra,
        extra_words: frames.extra_words,
        globals: names.globals,
        stable: names.stable,
        weak: names.weak,
        back: names.back,
        threads: threads.len() as u32,
        calls: count_calls(threads),
        births: count_births(threads),
    }
}

/// The number of calls of each thread.
fn count_calls(threads: &[Calls]) -> [u32; 16]
    requires threads { length threads.now ≤ MOST_THREADS }
    requires calls { sum_by length threads.now ≤ MOST_CALLS }
    ensures { result ≡ counts_of length 16 threads.now }
{
    let mut counts = [0; 16];
    for (i, calls) in threads.iter().enumerate() {
        counts[i] = calls.as_slice().len() as u32;
    }
    counts
}

/// The number of births of each thread.
fn count_births(threads: &[Calls]) -> [u32; 16]
    requires threads { length threads.now ≤ MOST_THREADS }
    requires calls { sum_by length threads.now ≤ MOST_CALLS }
    ensures { result ≡ counts_of births_among 16 threads.now }
{
    let mut counts = [0; 16];
    for (i, calls) in threads.iter().enumerate() {
        counts[i] = births_among(calls.as_slice());
    }
    counts
}

/// The number of calls that ask for a new object.
fn births_among(calls: &[Call]) -> u32
    requires { length calls.now ≤ MOST_CALLS }
    ensures { result ≡ births_among calls.now }
{
    let births = calls
        .iter()
        .filter(|call| matches!(call, Call::New(..) | Call::NewArray(..)))
        .count();
    births as u32
}
