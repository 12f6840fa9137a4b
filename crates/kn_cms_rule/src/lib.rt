//! The rule of a core that marks while threads store.
//!
//! A state of the core (`specs/State.antt`) is a graph, a colour for each object, and what the threads
//! and the collector are at. This crate owns the steps that they make of it (`specs/Steps.antt`), the
//! rule of the marking (`specs/MarkRule.antt`): the value that a store overwrites is gray before the
//! store, so no object that was reachable at the snapshot loses the last field that leads to it
//! unseen. Between any two steps the rule of the core (`specs/Rule.antt`) holds, by a law for each
//! kind of step.
#![tactic(auto)]

pub mod laws;
mod stages;

pub use stages::{CmsTurn, Colour, Doing, Stage};
