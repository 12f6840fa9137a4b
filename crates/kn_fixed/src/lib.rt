//! Pages whose cells all have one size.
//!
//! A `FixedPage` owns the words of one frame, cuts them into cells of 2 to 32 words from the frame's
//! start on, and keeps the words of the cells that are not taken in one list of free spans. The
//! words left over at the frame's end are never part of a cell and stay free.
//!
//! Only the page's own calls change it, and only opening a page takes memory. Between any two calls
//! its free spans stand in order in its frame, begin and end with cells, and leave room for one
//! more (`IsFixed` in `specs/FixedState.antt`).
#![tactic(auto)]

mod page;

pub use page::FixedPage;

#[cfg(test)]
mod tests;
