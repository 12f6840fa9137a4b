//! The page of a frame that holds a single object.
//!
//! A `SinglePage` owns the words of one frame, and gives out one cell, the first words of it. Until
//! that cell is released, or a sweep resets the page, it gives out no other.
//!
//! Only the page's own calls change it, and only opening a page takes memory. Between any two calls
//! its free words are those of the frame, or those behind one cell at its start (`IsSingle` in
//! `specs/SingleState.antt`).
#![tactic(auto)]

mod page;

pub use page::SinglePage;

#[cfg(test)]
mod tests;
