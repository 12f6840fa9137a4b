//! The rule of the heap: what one caller knows, which steps it may make, and how all words, pages
//! and views together stand for one graph.
//!
//! This crate owns the definitions (`specs/`): what a caller's view has (`Views.antt`), when it
//! allows a step of each kind (`Allowed.antt`), what the step makes of it and which entry it makes
//! (`Outcomes.antt`), and the rule itself (`Rule.antt`), a record of small records, each of which
//! names the parts that it reads. Nothing here has state. Between any two steps of a heap the rule
//! holds of its words, its pages, the views of its callers and its history. That the kinds of step that
//! are built keep it stands in `kn_keep_heap`.
#![tactic(auto)]

pub mod laws;
mod parts;
mod places;
mod positions;
mod requests;
mod steps;
mod words;

pub use parts::{Finalizing, Referring, Taken};
pub use places::{place_index, table_length};
pub use positions::Position;
pub use requests::{area_of, class_of_words, is_past_frames, words_asked};
pub use steps::{Action, Kind};
pub use words::{class_of, is_usable};

#[cfg(test)]
mod tests;
