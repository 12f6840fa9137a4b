//! The collector: one step of the heap a turn, up to the pause of an epoch.
//!
//! A `Collector` owns its stage, the epoch of the phase that it stored last, its marker and its log
//! (`Kept` in `specs/Kept.antt`); only its own turns change them. A turn makes exactly one step of the
//! heap: which one, and what comes behind it, is said stage by stage in `specs/Stages.antt` and
//! `specs/Turns.antt`. Between any two turns what a collector keeps of its view is what the view has
//! (`Agrees` in `specs/Agree.antt`). Where an epoch is wanted it stops the mutators, counts them, marks
//! until no work is open, and stores Weak, which is the pause; nothing is built behind it.
#![tactic(auto)]

mod collector;
mod marking;
mod stage;
mod stop;

pub use collector::Collector;
pub use stage::Stage;
