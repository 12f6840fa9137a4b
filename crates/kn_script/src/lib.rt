//! The grammar of scripts: from bytes to a script, or to the first bad line and its first reason.
//!
//! This crate owns the relation between bytes and scripts (`specs/Grammar.antt`) and the table of
//! reasons (`specs/Reasons.antt`); `kn_lines` reads each line. `parse` gives only good scripts
//! (`IsGoodScript` in `specs/Good.antt`).
//!
//! The parser goes over the lines once, and only it changes its progress. Between any two lines the
//! progress is what the lines that were passed have given, none of which meets a reason, and it is
//! within the limits (`IsGoodProgress` in `specs/Good.antt`).
#![tactic(auto)]

mod faults;
mod laws;
mod parser;
mod progress;
mod reasons;
mod scripts;
mod size_counts;

pub use faults::{Fault, Why};
pub use laws::state_laws;
pub use parser::{parse, read_script};
pub use scripts::{Calls, Script};
