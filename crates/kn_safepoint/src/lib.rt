//! The way of a mutator in and out: one step of the heap a turn.
//!
//! A `Safepoint` owns its stage (`Kept` in `specs/Kept.antt`); only its own turns change it. A turn
//! makes exactly one step of the heap: which one, what comes behind it and what it answers is said
//! stage by stage in `specs/Stages.antt`. Between any two turns a caller stands where the stage says
//! (`Agrees` in `specs/Agree.antt`). A caller that is out goes in where it loaded a run phase, and is
//! in where it loaded one again while its state said that it is in; else it goes out again.
#![tactic(auto)]

mod safepoint;
mod stage;

pub use safepoint::Safepoint;
pub use stage::{Enter, Stage};
