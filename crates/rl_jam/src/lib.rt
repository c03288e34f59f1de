//! Jams: the trains of a report that stopped each other, each last refused by the next, in a ring.
//!
//! It gives upward: `find_jams`, all jams of a report in order; `jam_text`, their text; the laws of what a train in a jam
//! of a right report has, and that no train is in two. It knows reports and the names of a network, and nothing of how
//! trains come to their moves.
#![tactic(auto)]

mod finding;
pub mod laws;
mod refusals;
mod rings;
mod text;
pub mod waits;

pub use finding::find_jams;
pub use laws::{jams_share_no_train, trains_in_jams};
pub use text::jam_text;
pub use waits::{Jam, Jams, WaitRow};
