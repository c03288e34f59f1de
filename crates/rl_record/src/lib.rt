//! What happened: an event is one change of one shared word by one node.
//!
//! It gives upward the event, what a turn of a node comes to, lists of events, the record of one node, and the merge
//! of the records of all nodes into one list. It knows no rule by which a node steps.
#![tactic(auto)]

pub mod event;
pub mod laws;
pub mod merging;
pub mod record;

pub use event::{Event, Events, Turn};
pub use laws::{histories_of_records, one_merge, records_by_node};
pub use merging::merge;
pub use record::{Record, Records};
