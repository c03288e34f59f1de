//! The core theorem: the moves of every run of events are a safe run of the railway.
//!
//! It reads the words and minds of a core as a state of the protocol, shows that each event is a step of the protocol
//! there, and so gives what is proved of steps as laws about runs of events. It has no code.
#![tactic(auto)]

pub mod laws;
pub mod promises;
pub mod work;
pub mod worlds;

pub use laws::{
    agreement, counted_events, counted_refusals, right_reports, safe_runs, steps_of_events,
    trains_at_rest,
};
pub use promises::{newest_events, promises_of_runs};
pub use work::{boxes_at_work, readable_words, turns_at_rest};
pub use worlds::worlds_of_runs;
