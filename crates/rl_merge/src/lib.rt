//! The merge of the histories of a run is a run: the one list of all events in the order of their stamps, after Lamport
//! (1978).
//!
//! Nodes that share no word know nothing of each other's order, so many runs have the same histories. The laws here say
//! that the one list of all events in the order of stamps and nodes is a run too, and leads to the same state. They
//! know runs and stamps, and no threads.
#![tactic(auto)]

pub mod laws;

pub use laws::{chained_runs, chains_of_runs, merged_records, merged_runs};
