//! What everything else is made of: numbers with a type of their own, the limits, names, lists, the draft of a
//! network, the places that refusals name, and the numbering of nodes.
//!
//! It gives upward: an id, a name and a place mean one thing everywhere; a list is seen by contracts as
//! the list that it holds. It knows no rule of the railway beyond which arms a box connects.
#![tactic(auto)]

pub mod draft;
pub mod ids;
pub mod job;
pub mod kind;
pub mod layout;
pub mod limits;
pub mod memory;
pub mod name;
pub mod place;
pub mod sequence;
pub mod text;

pub use draft::{Draft, DraftBox, DraftBoxes, DraftTrain, DraftTrains};
pub use ids::{Arm, BoxId, NodeNo, SegId, TrainId, WordNo};
pub use job::{Job, Verb};
pub use kind::{Kind, Side, arm_count, joins, kind_word, side_of, side_word};
pub use layout::{Layout, NodeKind, WordKind, numberings};
pub use memory::NoMemory;
pub use name::{Name, Names, name_ok};
pub use place::Place;
pub use sequence::Sequence;
pub use text::{Args, Text};
