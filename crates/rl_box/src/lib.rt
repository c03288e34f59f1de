//! The mind of a box: the letter that it has in hand, which word it looks at, and what it does with it.
//!
//! It gives upward a step of a box as a sentence over one mind and one word, and `act`, which makes exactly that
//! step. A box looks into its own table and at one word; it sees no other box and no train.
#![tactic(auto)]

pub mod laws;
mod mail;
pub mod mind;
mod points;
mod reservations;
mod steps;

pub use laws::{box_glances, box_lines, box_steps};
pub use mind::{Answer, BoxMind, Work};
pub use points::other_side;
