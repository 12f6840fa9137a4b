//! What one caller's turn on a board leaves: the views of the other callers and where their pages
//! lie, the heap, the history but for one entry of its own, and that no frame is unswept.
//!
//! This crate owns no state and no code: each law is a clause of a function that does nothing
//! (`laws`), and what it says is written in `specs/Laws.antt`. A turn is one step, or one move of a
//! page. So what one caller's view tells, and where its pages lie, stays through the turns of all others.
#![tactic(auto)]

pub mod laws;
