//! The protocol as a whole: every state that the nodes can come to, in whatever order they make their steps.
//!
//! It gives upward the state of all minds and words and the steps that fit it, what holds in every state, and
//! that the moves of the steps are a safe run; each law is the contract of a function with an empty body. It has
//! no code besides. Of the tables it knows only the line that they say, and it knows nothing of packed words, of
//! stamps or of threads.
#![tactic(auto)]

pub mod examples;
pub mod laws;

pub use laws::{
    agreement, boxes_at_work, counted_refusals, counted_steps, lines_of_tables, safe_runs_of_steps,
    sentences_as_steps, trains_at_rest,
};
