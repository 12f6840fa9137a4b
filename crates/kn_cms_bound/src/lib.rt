//! The steps that a core has left.
//!
//! This crate owns a number that says how many steps a state of the core has left at most
//! (`steps_left` in `specs/Work.antt`): three for each call, two for each word, and the snapshot. Each
//! turn that makes a step lowers it, and none raises it. It also shows that a state and an actor leave
//! one turn, so that an order of turns leaves one run.
#![tactic(auto)]

pub mod laws;
