//! The world as code: who stands where, who holds what and how the points stand, a row for each train and box, and
//! the ten moves with their guards.
//!
//! It gives upward a `World` that tests a move as the definitions do and changes as they say, and that
//! answers whether trains have met or left the rails. It takes moves as they come, and may not know who
//! made them: it has no words, no protocol and no reports.
#![tactic(auto)]

mod changes;
mod conditions;
mod first_states;
mod guards;
mod parts;
mod reservations;
mod rests;
mod safety;
mod states;
mod world;

pub use parts::{BoxStates, Spot, Spots};
pub use rl_model::{Move, Moves, Points};
pub use states::{BoxState, PathLock};
pub use world::{Guard, World};
