//! The run of a script on a board: turns of its threads and of the collector, one after another.
//!
//! A `trace` owns its board, the mutators of all threads and the collector (`Trace` in
//! `specs/Traces.antt`), and only the turn of the actor whose turn it is changes them. Between any two
//! turns each mutator and the collector agree with what their callers know on the board, no frame is
//! unswept, and the finalizer has made no step (`Holds` in `specs/Between.antt`). A run ends where every
//! actor has ended, or where the greatest number of turns was made (`IsRunOf` in `specs/Runs.antt`).
#![tactic(auto)]

mod actors;
mod runs;

pub use runs::{Traced, trace};
