//! Lists of free spans.
//!
//! A `Ranges` owns a sorted list of free spans, none of which touches another, in one array whose
//! room is taken when it is opened; no other call takes memory. The page that holds it alone changes
//! it. Between any two calls the list is one of free spans (`IsFreeList` in `specs/SpanLists.antt` of
//! `kn_base`) and has no more spans than there is room for. Each kind of page keeps the free words of
//! its frame in one.
#![tactic(auto)]

mod edits;
mod laws;
mod ranges;
mod span_array;

pub use laws::{
    cells_are_released, cells_are_taken, fronts_leave_rests, puts_have_room, whole_cells_are_left,
};
pub use ranges::Ranges;
pub use span_array::SpanArray;

#[cfg(test)]
mod tests;
