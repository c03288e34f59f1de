//! From the bytes of a network text to a draft, and back: what the text says, with names in place of numbers.
//!
//! It gives upward a draft all of whose names are names, or the first refusal of the text and its place; and for
//! such a draft a text that is read as that draft. It knows how a network is spelled, and nothing of what makes
//! one: no count, no look-up of a name.
#![tactic(auto)]

mod boxes;
mod draft;
mod draft_names;
mod keys;
mod names;
mod reading;
mod refusal;
mod table;
mod trains;
mod words;
mod writing;

pub use reading::read_draft;
pub use refusal::SyntaxRefusal;
pub use writing::write_draft;
