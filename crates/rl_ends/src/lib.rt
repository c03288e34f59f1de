//! What a network text of format 2 says once its keys are read: segments that name their two ends, and the draft that
//! follows from them.
//!
//! It gives upward: `joined`, the draft of such a text, or its first refusal by rules 21 to 25; `parted`, the way back
//! from a draft that is whole; `end_names`, what the text of an end says. It knows no TOML, no limit on how many there
//! are, and no rule of a draft.
#![tactic(auto)]

mod arm_table;
pub mod end_text;
pub mod ends_draft;
mod joining;
pub mod laws;
mod named;
mod number_table;
mod parting;
pub mod refusal;
mod rules_21_to_23;
mod segment_ends;

pub use end_text::EndText;
pub use ends_draft::{EndsBox, EndsBoxes, EndsDraft, EndsSegment, EndsSegments};
pub use joining::joined;
pub use laws::{end_names, first_refusals, joined_names};
pub use parting::parted;
pub use refusal::EndRefusal;
