//! A board: a heap in plain memory, with the view of each caller and the one history.
//!
//! A `Board` owns the words, the pages in their slots, what each caller knows, and the history.
//! Only the steps of a `BoardSeat` and its moves of pages change it, each as the rule of `kn_rule` says.
//! No call but `open` has an answer for want of memory. Between any two steps the rule holds of the
//! state that the board stands for: its words, the pages of the frames that no caller owns, the views
//! and the history (`Sound` in `specs/World.antt`). Of the definitions, users need `World.antt` and
//! `Open.antt` alone.
#![tactic(auto)]

mod board;
mod frames;
mod kinds;
mod notes;
mod opening;
mod plain;
mod spans;
mod starts;
mod step;

pub use board::{Board, BoardSeat};
