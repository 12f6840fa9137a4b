//! Measures lists of free spans, the model, and the reading of scripts: cells of two words are taken
//! from a list and put back, in several orders, entries are applied to a graph, and texts are parsed.
//!
//! `Cells` owns the list and the cells that are out of it; the steps of `steps.rt` alone change them.
//! Between any two calls each cell that is out is a taken cell of the frame, and no two of them have
//! a word in common (`HoldsCells` in `specs/HoldsCells.antt`).
//!
//! Without words it goes through the steps in a small frame, over a chain of 1,302 objects, and over
//! texts of 4,096 bytes, and prints what each did, which is the same at each run. With the word `time`
//! it does so in a frame of 65,536 words, and prints the time that a call took on average, over a chain
//! of 300,762 objects, and over texts of 1,048,576 bytes, and prints the time of each.
#![tactic(auto)]

mod cells;
mod model;
mod orders;
mod steps;
mod texts;

use kn_base::Span;
use model::run_model;
use std::rt::{Clock, Env};
use std::{env, io};
use steps::run_steps;
use texts::run_texts;

/// The frame of a run without words.
const SMALL: Span = Span { start: 1, len: 128 };

/// The frame of a timed run.
const LARGE: Span = Span {
    start: 1,
    len: 65_536,
};

/// The frames of the chains of a run without words and of a timed one.
const FEW_FRAMES: u8 = 1;

const MANY_FRAMES: u8 = 231;

fn main(rt: HostRuntime) -> io::Result<()> {
    if is_timed(&rt)? {
        run_steps(&rt, LARGE, true)?;
        run_model(&rt, MANY_FRAMES, true)?;
        run_texts(&rt, 1_024, 1_048_576, true)
    } else {
        run_steps(&rt, SMALL, false)?;
        run_model(&rt, FEW_FRAMES, false)?;
        run_texts(&rt, 11, 4_096, false)
    }
}

/// Whether the first word of the program is `time`.
fn is_timed(rt: &(impl Env + AllocGlobal)) -> io::Result<bool> {
    match env::args(rt)?.nth(1) {
        Some(word) => Ok(word.as_str() == "time"),
        None => Ok(false),
    }
}
