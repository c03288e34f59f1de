//! The audit of a report: whether its moves keep their guards from the start of a network, and its outcomes
//! are the counted ones.
//!
//! It gives upward the verdict on a text, line by line as it is read, and the same on a report that was read. It knows
//! the network, the ten moves and their guards, and the form of a report, and nothing of how trains and boxes come to
//! their moves.
#![tactic(auto)]

mod auditing;
mod counts;
mod fates;
mod judge;
pub mod laws;
mod reports;
mod verdict;

pub use auditing::audit;
pub use reports::judged;
pub use rl_report::ReportRefusal;
pub use verdict::Verdict;
