//! Tests of the grammar, by its public calls alone. They stand apart, since the gate proves a crate
//! with tests twice.
#![tactic(auto)]

#[cfg(test)]
mod tests;
