//! What is said of drafts: the network that a draft means, the rules that it may break and the places at
//! which it does, and which refusal is the first.
//!
//! It gives upward the words in which the acceptance of a network is specified, and their laws, each as the
//! contract of a function with an empty body: the first refusal is found by a search, and an accepted draft
//! means a network. It has no code besides, and knows nothing of how a draft is read or checked.
#![tactic(auto)]

pub mod examples;
pub mod laws;

pub use laws::{accepted_networks, first_refusals};
