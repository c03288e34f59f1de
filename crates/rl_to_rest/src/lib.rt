//! A whole run on threads: all nodes of a line at work until every train rests, and the report of what they did.
//!
//! It gives upward the report of a run to rest, which is right on the tables of a network. In which order the nodes
//! work is left to the threads, and nothing of it is known but that what they did is one run. It knows no file and no
//! text.
#![tactic(auto)]

mod events;
mod going;
pub mod reports;
mod starts;

pub use reports::{Pace, report};
