//! The shared words: what each kind of word says, and its packing into the bits of a number.
//!
//! It gives upward: each value of a word is one number and the other way round; a word is a stamp and a
//! payload; and at each value exactly one node may change a word. It knows no step of a node.
#![tactic(auto)]

mod field;
pub mod laws;
pub mod lock;
pub mod mail;
pub mod owners;
pub mod resv;
pub mod run;
pub mod sense;
pub mod stamp;

pub use laws::{arms, bit_fields, letters, one_owner, packings, readings, stamps, words};
pub use lock::{LockWord, Path};
pub use mail::{Letter, MailWord};
pub use owners::owner;
pub use resv::ResvWord;
pub use run::RunWord;
pub use sense::SenseWord;
pub use stamp::{payload_of, stamp_of, word_of};
