//! What an atomic step of a node is, how a node of any kind finds the word at which it looks and makes its step
//! there, and what a run is: a list of events, each of which is the step of its node in the state that the events
//! before it leave.
//!
//! It gives upward one definition of a step, `node_step`, which turns, replays and threads all cite, `target` and
//! `act`, which answer it, what is so of the state after every run, and the words and the minds at the start. It keeps
//! no words and no minds: who holds them, in tables or at seats, stands above it. It knows no move of the railway.
#![tactic(auto)]

pub mod acts;
pub mod laws;
pub mod mind;
pub mod start;
pub mod targets;
pub mod turns;
pub mod who;

pub use acts::{act, act_anywhere};
pub use laws::{kept_minds, numbered, sound_runs, steps_at_targets, steps_of_owners};
pub use mind::Mind;
pub use start::{start_mind, start_words};
pub use targets::target;
pub use turns::{is_ready, next_place, next_stamp, scan_after};
