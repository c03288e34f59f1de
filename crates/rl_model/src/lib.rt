//! What is said of a railway, before any of the program: the network as a value, the world and its ten
//! moves, safety, right reports and their text.
//!
//! It gives upward the words that the contracts of the other crates are written in, and the laws that hold
//! between them, each as the contract of a function with an empty body. It has no code besides, and knows
//! nothing of drafts, of boxes that answer, of words, of threads or of files.
#![tactic(auto)]

pub mod laws;
pub mod moves;
pub mod network;
pub mod report;

pub use moves::{Move, Moves, Points};
pub use network::{
    BoxIds, NetworkPlan, SegIds, Segment, SegmentEnd, Segments, SwitchBox, SwitchBoxes, Train,
    Trains,
};
pub use report::{Fate, Outcome, Outcomes, Report};
