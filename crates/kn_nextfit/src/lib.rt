//! The page of a frame of cells of any size, taken by next fit.
//!
//! A `NextFitPage` owns the words of one frame, its list of free spans and a cursor. A request takes
//! the front of the first span long enough at or after the cursor, or else of the first of all, and
//! leaves the cursor behind it.
//!
//! Only the page's own calls change it, and only opening a page takes memory. Between any two calls
//! its free spans stand in order in its frame, and there is room for as many as cells of 2 words ask
//! for (`IsNextFit` in `specs/NextFitState.antt`).
#![tactic(auto)]

mod page;

pub use page::NextFitPage;

#[cfg(test)]
mod tests;
