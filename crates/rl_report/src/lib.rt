//! The report as text.
//!
//! It gives upward the text of a report, byte for byte as the model defines it. It knows the names of a
//! network and the forms of the lines, and not how a report came about.
#![tactic(auto)]

mod forms;
pub mod laws;
pub mod moves;
pub mod outcomes;
pub mod read;
pub mod reader;
pub mod refusal;
pub mod report;
mod words;

pub use moves::read_move;
pub use outcomes::read_outcome;
pub use read::read_report;
pub use reader::ReportLines;
pub use refusal::ReportRefusal;
pub use report::report_text;
pub use rl_model::{Fate, Outcome, Outcomes, Report};
