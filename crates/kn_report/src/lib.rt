//! The printed text of a run.
//!
//! This crate owns the logs of callers as lists, and the text that is made of them. A log grows at
//! its end alone, by `Log::push`; whoever runs a caller owns its log. The text is a function of the
//! logs (`report_text` in `specs/Reports.antt`), and nothing is kept between two reports.
#![tactic(auto)]

mod events;
mod logs;
mod texts;

pub use logs::Log;
pub use texts::{push_count, push_threads, report};

#[cfg(test)]
mod tests;
