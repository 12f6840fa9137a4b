//! The printed text of a run on a core.
//!
//! The text is a function of the logs of the threads, of which objects are condemned, and of the
//! number of objects at the snapshot (`core_text` in `specs/CoreReports.antt`). All three are read off
//! the core, and nothing is kept between two reports.
#![tactic(auto)]

mod facts;
mod texts;

pub use texts::core_report;
