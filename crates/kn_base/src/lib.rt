//! The numbers that every layer of the heap speaks of: addresses and spans of words, frames,
//! epochs, callers, the limits, the sizes of one heap, the classes of pages, the places of its table
//! and the words in them, and the lines of a text.
//!
//! It owns what they mean (`specs/`) and keeps no state, so nobody changes anything here. Between any
//! two steps of a run the sizes are good (`IsGood` in `specs/Sizes.antt`), and the frames lie one
//! after another (`FramesLie` in `specs/Frames.antt`).
#![tactic(auto)]

mod classes;
mod frame_word;
mod header_word;
mod heap;
mod kinds;
mod laws;
mod limits;
mod mark_word;
mod node_word;
mod numbers;
mod pages;
mod phase_word;
mod places;
mod texts;

pub use classes::{EXTRA_CLASS, LEAST_CELL, MOST_CELL, NEXT_FIT_CLASS, PageClass, SINGLE_CLASS};
pub use frame_word::FrameWord;
pub use header_word::HeaderWord;
pub use heap::Sizes;
pub use kinds::{Code, Colour, FrameKind, NodeKind};
pub use laws::frames_lie;
pub use limits::{
    LEAST_EXTRA_WORDS, LEAST_FRAME_WORDS, LEAST_HEAP_WORDS, LOCALS, LONGEST_TEXT, MOST_BACK_COUNT,
    MOST_CALLS, MOST_CLEANERS, MOST_ELEMENTS, MOST_FIELDS, MOST_FRAME_WORDS, MOST_FRAMES,
    MOST_HEAP_WORDS, MOST_LAYOUTS, MOST_NAMES, MOST_ORDER_WORDS, MOST_THREADS,
};
pub use mark_word::MarkWord;
pub use node_word::NodeWord;
pub use numbers::{Addr, Caller, Epoch, FrameNo, Span};
pub use pages::{FramePage, Home};
pub use phase_word::PhaseWord;
pub use places::Place;
pub use texts::line_after;

#[cfg(test)]
mod tests;
