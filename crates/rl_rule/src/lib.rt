//! The state of a core as words that threads share: one table of atomic words under a rule, and a seat at it for each
//! node.
//!
//! It gives upward the rails: a load and a step of a node are one atomic access each, and what all threads did is at
//! every moment one run. The rule knows of a step that it is `node_step` and that a word is changed by its owner
//! alone. It knows no mind, no guard and no record.
#![tactic(auto)]

pub mod laws;
pub mod plays;
pub mod rails;
pub mod rule;
pub mod seats;
pub mod views;

pub use laws::{alone_with_reservations, moments_of_rule, rule_of_rails};
pub use rails::{Rails, Words};
pub use seats::NodeSeat;
pub use views::{Kept, Load, Walk};
