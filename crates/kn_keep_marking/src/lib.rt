//! The laws of the steps by which callers mark the heap, and of all kinds of step that are built: each
//! keeps the rule of `kn_rule`.
//!
//! This crate owns no state and no code: each law is a clause of a function that does nothing
//! (`laws`), and what it says is written in `specs/Laws.antt` of this crate and of `kn_keep_heap`.
#![tactic(auto)]

pub mod laws;
