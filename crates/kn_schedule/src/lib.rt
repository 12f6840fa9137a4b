//! The order of turns: which thread, or the collector, takes the next turn, where a turn is one step.
//!
//! This crate owns what order words ask for (`specs/Asks.antt`) and the order of turns (`IsNext` in
//! `specs/Schedules.antt`), and is asked before each turn. Order words come first, and behind them
//! rounds. Only `next_turn` changes a schedule. Who has ended, how many calls each thread has answered
//! and the code of the phase are not kept here, but told in each call.
#![tactic(auto)]

mod asking;
mod schedule;

pub use schedule::Schedule;

#[cfg(test)]
mod tests;
