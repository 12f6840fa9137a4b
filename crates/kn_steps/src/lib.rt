//! One caller's access to the shared state of a heap: each call of `Steps` is one atomic step.
//!
//! This crate owns the trait that the machines are written over, and what its calls ask and tell
//! (`specs/Made.antt`). Each heap implements it: a board of plain words, or a shared table. Only a
//! caller's own calls change its view, and each of them changes it as the rule's `view_after` says.
//! Between any two calls the rule of `kn_rule` holds of the heap, and the page of a frame that this
//! caller owns lies in its slot exactly where `here` says so.
#![tactic(auto)]

mod steps;
mod turns;

pub use steps::Steps;
pub use turns::Turn;

#[cfg(test)]
mod tests;
