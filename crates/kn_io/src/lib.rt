//! Bytes in and out of a run: where they come from, where they go, and how often a device failed.
//!
//! The crate owns what a source and a sink are, the devices that are one, and the reading and
//! writing of a whole text. A device is changed by its own calls alone, through the `&mut` of
//! whoever holds it: a source by `read`, a sink by `write` and `flush`.
//!
//! Between any two calls the count of a device's faults has not fallen (`NeverFalls` in
//! `specs/Counts.antt`). A call that answers Ok leaves it as it was; in one that answers that the
//! device failed it rose, or stands at its last value (`Rose`). Where a source tells its bytes, those
//! given and those left are together those that it had (`Gives` in `specs/Told.antt`), and where a
//! sink tells them, what it holds begins with what it held (`Appends`).
#![tactic(auto)]

mod adapters;
mod calls;
mod devices;
mod memory;
mod safe;
mod transfers;

pub use adapters::{StdSink, StdSource};
pub use devices::{Failed, Sink, Source};
pub use memory::{MemSink, MemSource};
pub use safe::{SafeSink, SafeSource};
pub use transfers::{BUFFER, ReadEnd, read_all, write_all};

#[cfg(test)]
mod tests;
