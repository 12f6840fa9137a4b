//! The laws of the steps that mutators make on locals, globals, objects and frames: each keeps the
//! rule of `kn_rule`.
//!
//! This crate owns no state and no code: each law is a clause of a function that does nothing
//! (`laws`), and what it says is written in `specs/Laws.antt`. A heap that makes only steps that its
//! callers' views allow rests on them: between any two of its steps the rule holds.
#![tactic(auto)]

pub mod laws;
