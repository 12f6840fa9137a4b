//! Layouts: what the fields of an object hold, and how many words its cell has.
//!
//! This crate owns the kinds of fields and the sizes of cells; `specs/Layouts.antt` defines both.
//! A layout is made once, before a run, and no call changes it, so between any two steps the
//! fields of an object are `fields_of` its layout and its length.
#![tactic(auto)]

mod layouts;

pub use layouts::{FieldKind, FieldKinds, Layout, cell_size, cell_words, copy_layouts, kind_at};

#[cfg(test)]
mod tests;
