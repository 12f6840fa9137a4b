//! A marker: one step of the marking of a heap a turn.
//!
//! A `Marker` owns what it keeps of its caller's share, which root set it comes to next, its hints and
//! the cursor of its search (`Kept` in `specs/Kept.antt`); only its own turns, and its start, change
//! them. A turn makes exactly one step of the heap: which one, and what comes behind it, is said case by
//! case in `specs/Steps.antt`. Between any two turns the share that it keeps is the one that its caller's
//! view has (`Agrees` in `specs/Agree.antt`). A hint may be stale: the exchange of the mark decides.
#![tactic(auto)]

mod heap;
mod hints;
mod make;
mod marker;
mod next;
mod stage;
mod turn;

pub use marker::Marker;
pub use next::Next;
pub use stage::Stage;
pub use turn::MarkTurn;
