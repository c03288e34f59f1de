//! The accepted network: what a draft has to be so that trains may run on it, and the questions that the
//! layers above ask of it.
//!
//! It gives upward a `Network` that contracts see as the network of the draft, whose accessors answer by
//! the definitions of the model, and the first refusal of every other draft. It knows nothing of texts,
//! trains that move, or what a box answers.
#![tactic(auto)]

mod draft_check;
mod draft_network;
pub mod name_hint;
mod name_table;
mod named_draft;
mod names;
pub mod network;
pub mod refusal;
mod rule_10_ends;
mod rule_11_sides;
mod rule_14_fits;
mod rule_15_starts;
mod rule_5_counts;
mod rule_6_twice;
mod rules_12_13_routes;
mod rules_7_to_9_arms;

pub use draft_check::check;
pub use name_hint::NameHint;
pub use network::Network;
pub use refusal::NetRefusal;
