//! The minds of a track and of a point machine: which word each looks at, and what it does with it.
//!
//! It gives upward a step of either as a sentence over one mind and one word, and `act`, which makes exactly that
//! step. Neither has a table.
#![tactic(auto)]

pub mod laws;
pub mod machine;
pub mod track;

pub use laws::{machine_glances, machine_steps, track_glances, track_steps};
pub use machine::MachineMind;
pub use track::{TrackMind, TrackPhase};
