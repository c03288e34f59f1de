//! Networks made by order: a ring of stations, as many as there are trains.
//!
//! It gives upward, for 1 to 32 trains, the draft of the ring as the definitions describe it, and that it breaks
//! no rule. It knows drafts and their rules, and nothing of how a network is driven.
#![tactic(auto)]

pub mod ring;
pub mod station;
pub mod train;

pub use ring::make_draft;
