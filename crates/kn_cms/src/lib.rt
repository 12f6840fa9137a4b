//! A core that marks while threads store, and loses nothing.
//!
//! Threads make calls on one graph of objects, a whole call in one step, but for `set`, which loads
//! the field, shades what it loaded and then stores. A collector takes a snapshot between two calls,
//! and marks from it while the threads go on. This crate owns the turns: between any two of them the
//! lists of the core stand for a state in which the rule of the core holds (`specs/Stands.antt`), and
//! a turn makes of it the state behind a turn of the definition (`specs/Moves.antt`).
#![tactic(auto)]

mod collector_turns;
mod machine;
mod plans;
#[cfg(test)]
mod tests;
mod thread_turns;
mod words;

pub use kn_cms_rule::CmsTurn;
pub use machine::Core;
pub use words::{CORE_WORDS, core_words_law, read_core_script};
