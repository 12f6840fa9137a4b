//! What is kept of a graph as plain lists: the objects and their fields, what locals, globals and
//! names hold, the sizes and layouts, and the marking of what is reachable.
//!
//! Each type owns its lists, and nothing but its own calls changes them. Between any two calls the
//! fields of objects lie apart and each word of the heap has its owner (`AreKept` in
//! `specs/Kept.antt`). That the parts fit one another is for whoever keeps them together.
#![tactic(auto)]

mod ground;
mod holders;
mod marking;
mod objects;

pub use ground::Ground;
pub use holders::Holders;
pub use marking::{Roots, mark_held};
pub use objects::{KeptObject, Objects};
