//! A mutator: one thread of a script, one step of the heap a turn.
//!
//! A `Mutator` owns its thread's calls, allocator, marker and log (`Mutating` in `specs/Mutating.antt`);
//! only its own turns change them. A turn makes exactly one step of the heap, or moves one page: which one
//! is said task by task in `specs/Tasks.antt` and `specs/Turns.antt`. Between any two turns what a
//! mutator keeps of its view is what the view has (`Agrees` in `specs/Agree.antt`). A mutator goes in
//! and out as the phase says, by the turns of a `Safepoint`, and takes the epoch that its `gc` waits for
//! along. One that is out and loads Mark helps: its `Marker` makes the turns until it finds no work open.
#![tactic(auto)]

mod births;
mod calls;
mod gate;
mod helping;
mod home;
mod mutator;
mod polls;
mod task;
mod waits;
mod way_in;

pub use gate::{Gate, OpenGate};
pub use mutator::Mutator;
pub use task::Task;
