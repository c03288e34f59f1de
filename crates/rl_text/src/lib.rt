//! Text out and text in: a text that grows at its end, the lines of a text, the words of a line, and
//! decimal numbers.
//!
//! It gives upward: bytes, words and lines are appended exactly; lines and words are parts of the text, in
//! order; a number is printed and read one to one. It knows no word of any format.
#![tactic(auto)]

pub mod number;
pub mod output;
pub mod tokens;
pub mod words;

pub use number::read_number;
pub use output::Out;
pub use tokens::{TextLine, Tokens};
pub use words::word_at;
