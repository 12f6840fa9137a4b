//! What is stored of the frames that callers own, once for each frame.
//!
//! A `FrameHold` owns the frame's owner, its word, and the free spans and the cursor that its owner's
//! view has (`Hold` in `specs/Holds.antt`); the owner and the cursor are read by contracts alone. Only
//! the owner's claim, its cells and its going home change it. Between any two of these the free spans
//! have the order and the room that `IsCutOf` asks, where those that were claimed had.
#![tactic(auto)]

mod frames;
mod free;
pub mod laws;

pub use frames::FrameHold;
