//! The search for a frame: each frame of an area is looked at once, and the best one is claimed.
//!
//! A `Finder` owns what one search has seen (`Search` in `specs/Search.antt`); only the caller whose
//! search it is makes its turns, each of which is one step. Between any two turns of a search that goes
//! on the finder and its caller's view know the same of the area's frames (`Agrees` in
//! `specs/Agree.antt`).
#![tactic(auto)]

mod best;
mod finder;
mod look;

pub use finder::Finder;
pub use look::Look;
