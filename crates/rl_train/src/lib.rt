//! The mind of a train: what it has in hand, which word it looks at, and what it does with it.
//!
//! It gives upward a step of a train as a sentence over one mind and one word, and `act`, which makes exactly
//! that step. A train looks into its own table and at one word; it sees no box and no other train.
#![tactic(auto)]

mod jobs;
pub mod laws;
pub mod mind;
mod steps;

pub use laws::{train_glances, train_lines, train_steps, usable_tables};
pub use mind::TrainMind;
