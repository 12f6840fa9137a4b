//! The marking of a heap by several callers at once: what each of them has of it, what holds between
//! any two steps, and the laws of the steps.
//!
//! This crate owns no state. A heap stands as functions (`specs/Heap.antt`): which objects there are,
//! what they hold, and what the root sets hold. Marks and the words of root sets are numbers, a
//! caller's share is a `Work`, and one number counts all work that is open (`specs/Marking.antt`).
//! What a step makes of its caller's share stands in `specs/Shares.antt`, and what the laws say in
//! `specs/Laws.antt`: where the count is 0, the black objects are exactly the reachable ones.
#![tactic(auto)]

pub mod laws;
mod work;

pub use work::{Child, Doing, Work};
