//! Pages of extra cells: cells of 2 words, one for each object with a cleaner.
//!
//! An `ExtraPage` owns a fixed page and lends it to nobody: only its own calls change that page.
//! Between any two calls the page is one of cells of 2 words (the invariant of `ExtraPage`), with
//! all that a fixed page keeps (`IsFixed` in `kn_fixed`). Only opening a page takes memory.
#![tactic(auto)]

mod page;

pub use page::{EXTRA_CELL, ExtraPage};

#[cfg(test)]
mod tests;
