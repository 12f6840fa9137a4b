//! What is stored of one caller's view.
//!
//! A `Known` owns what a caller knows beside the frames that it owns and its log, which a board reads
//! off elsewhere. Only that caller's own steps change it, each as the outcome of the step's kind says
//! (`Makes` and `Says` in `specs/Told.antt`). A step puts what it says behind the `History` itself, which
//! has room for one entry more between any two steps. Between any two steps each frame was seen and
//! refused in a search before the next one alone, so a new search forgets all of them at once.
#![tactic(auto)]

mod cells;
mod collecting;
mod history;
mod known;
mod loads;
mod looks;
mod marking;
mod polls;
mod searches;
mod shares;
mod stores;
mod words;

pub use history::History;
pub use known::Known;
pub use loads::{field_of, kind_told, reply_to_reference};
pub use polls::answer_alone;
pub use shares::{body_read, child_after, moved_set, paid, reserved, rested, root_read, took_gray};
pub use words::{is_done, left_by, pauses_before, runs, stored_by, wanted_by};
