//! The run of a script on a core: turns of its threads and its collector, one after another.
//!
//! A run owns its core and the order of turns, and only the turn of the actor whose turn it is
//! changes them. It ends where each actor has ended, or where the greatest number of turns was made
//! (`IsCoreRunOf` in `specs/CoreRuns.antt`). Between any two turns what is kept stands for what the
//! turns have come to (`IsRunnerOf` in `specs/Runners.antt`), and each turn lowers the turns that are
//! left (`turns_left` in `specs/Measures.antt`): so enough turns (`specs/Enough.antt`) are never spent.
#![tactic(auto)]

pub mod laws;
mod runner;
mod runs;

pub use runs::{CoreTraced, trace_core};
