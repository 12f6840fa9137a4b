//! The allocator of a thread: it gets a cell for an object and makes the object, one step of the
//! heap per turn.
//!
//! A `ThreadAlloc` owns the pages in its thread's hand, at most one of each class (`Keeps` in
//! `specs/Keeps.antt`); only the thread makes its turns. A turn makes one step of the heap, or moves
//! one page, or answers without either; work on a page in hand is done in the turn of the step before
//! it. Between any two turns, until an unswept frame is claimed, each frame that the thread owns is in a
//! hand or the stage's, and the page in a hand is what the thread's view has of its frame, but for a cell
//! that was taken and of which no word is cleared yet (`Agrees` in `specs/Agree.antt`). Where this begins
//! and what it outlasts is said by `laws`.
#![tactic(auto)]

mod alloc;
mod cells;
mod home;
mod in_hand;
pub mod laws;
mod stage;

pub use alloc::ThreadAlloc;
pub use cells::take_cell;
pub use stage::{AllocTurn, Hand, HomeTurn, Request, Stage};
