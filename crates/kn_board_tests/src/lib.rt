//! Tests of `kn_board` over real pages, and of a stop on it. This crate owns nothing.
#![tactic(auto)]

#[cfg(test)]
mod tests;
