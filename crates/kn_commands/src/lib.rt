//! The commands of the program, over devices that are handed in, and what a program's `main` calls.
//!
//! This crate owns how a run of a script ends (`specs/Ends.antt`): what was read, what is printed, and
//! the status. `run_words` does what the program's words ask for. `run_program` makes the words and the
//! devices, and calls it; `exit_of` gives the exit number. The runs themselves are `trace` of
//! `kn_trace` and `trace_core` of `kn_cms_trace`; nothing is kept here between two calls.
#![tactic(auto)]

mod cms;
mod ends;
mod program;
mod refusals;
mod status;
mod trace;
mod words;

pub use cms::{cms_law, run_cms};
pub use program::{exit_of, run_program, words_of};
pub use status::Status;
pub use trace::{TraceEnd, run_trace};
pub use words::run_words;
