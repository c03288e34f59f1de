//! The protocol on one thread: all words, minds and clocks in tables, and turns of any nodes in any order.
//!
//! It gives upward a `Core`, which contracts see as its run: each turn puts the one event of its node on the run or
//! leaves it. It is the refinement and nothing else: what is so of runs is proved below it.
#![tactic(auto)]

pub mod cores;
mod look;
pub mod moves;
mod promises;
mod redoing;
pub mod replays;
pub mod reports;
mod speed;
mod starts;
mod turns;
mod worlds;

pub use cores::Core;
pub use moves::move_of;
pub use replays::{ReplayFault, replay};
pub use reports::report_of;
pub use rl_steps::Mind;
