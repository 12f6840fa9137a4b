//! What a core that marks while threads store keeps, as lists, and the writes that its steps make.
//!
//! Each call has its exact value as its contract. Which write is a step of the core, and that there is
//! room for it, is for the crate above.
#![tactic(auto)]

mod cells;
mod collector_steps;
mod colours;
mod entries;
mod lists;
mod thread_steps;

pub use cells::{Cell, Cells};
pub use colours::Colours;
pub use entries::Entries;
pub use lists::Lists;
