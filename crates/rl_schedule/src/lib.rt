//! Schedules: which nodes are to have turns, in which order, and the report of a core that was driven so.
//!
//! It gives upward: the schedule of a text, or the first line that is to be refused; the moves and the report of the
//! turns of a schedule, exactly those of the definition of turns. It knows nothing of what a turn does but what the
//! contract of `Core::turn` says.
#![tactic(auto)]

pub mod drives;
pub mod laws;
mod nodes;
mod orders;
mod plain;
pub mod reading;
pub mod refusal;
pub mod reports;
pub mod roles;
pub mod schedules;

pub use drives::drive;
pub use laws::{few_moves, nodes_of_networks};
pub use reading::read_schedule;
pub use refusal::ScheduleRefusal;
pub use reports::report;
pub use schedules::{Item, Schedule};
