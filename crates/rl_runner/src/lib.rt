//! Rounds: workers that give every node its turns.
//!
//! It gives upward what a node must be able to do to be given turns, and the call that gives each of many nodes the
//! same number of turns, by several threads. It knows no protocol, no word and no seat.
#![tactic(auto)]

mod abreast;
pub mod turner;
pub mod work;

pub use turner::Turner;
pub use work::rounds;
