//! A node at its seat: its turns, the record of what it made, and what is left of it when the rounds are over.
//!
//! It gives upward the nodes of some rails, which workers give turns, each node with its mind, its scan place and its
//! record; their parts; and the merge of the parts' records, with the words and the minds to which it leads. A node's
//! record is the history that its seat knows, event for event. It knows no move of the railway, and starts no thread.
#![tactic(auto)]

pub mod finishing;
pub mod laws;
mod laying;
mod look;
pub mod nodes;
pub mod parting;
pub mod parts;
pub mod rooms;
pub mod seating;

pub use finishing::{Finished, Minds, finish};
pub use laws::{kept_nodes, parts_at_rest, topped_up_nodes};
pub use laying::{Seats, lay_nodes};
pub use nodes::{Nodes, RunNode};
pub use parting::part;
pub use parts::{Part, Parts};
pub use rooms::top_up_all;
pub use seating::all_seats;
