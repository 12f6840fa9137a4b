//! Tests of the program's commands, over devices in memory. They stand in a crate of their own, so that
//! `kn_commands` is not proved once more for them.
#![tactic(auto)]

#[cfg(test)]
mod tests;
