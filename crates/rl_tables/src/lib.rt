//! The tables: what each box and each train has to know of an accepted network, read off it once.
//!
//! It gives upward a `Line`, whose rows are in range and name two different segments that their box can
//! connect, and the text of the tables. A box and a train look into their own table and never into the
//! network. It knows nothing of what a box answers or where a train is.
#![tactic(auto)]

mod compiler;
pub mod examples;
pub mod laws;
pub mod line;
mod starts;
pub mod table;
pub mod text;

pub use compiler::compile;
pub use laws::tables_of_networks;
pub use line::Line;
pub use table::{BoxTable, BoxTables, NextRow, StepRow, StepRows, Tables, TrainTable, TrainTables};
pub use text::tables_text;
