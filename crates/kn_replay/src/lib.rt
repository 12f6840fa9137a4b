//! Replays histories: a plain, slow program beside the model of `kn_graph`, which answers calls,
//! applies entries, and tells what is reachable.
//!
//! A `Graph` owns its lists and nothing but its own calls changes them. Between any two calls its
//! parts fit together (`FitTogether` in `specs/Held.antt`), and it stands for one graph of the
//! model (`graph_of` in `specs/Replay.antt` of `kn_objects`).
#![tactic(auto)]

mod applying;
mod changes;
mod graph;
mod plans;

pub use graph::Graph;
