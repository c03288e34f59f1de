ghost use Rattle.std.specs.Prelude.{◌≡◌, ℕ, List, IfOk, string_bytes};

use crate::memory::NoMemory;
use crate::sequence::Sequence;
use std::alloc::Global;
use std::marker::Model;

/// A text of its own, such as a word of the command line. Contracts see it as its bytes.
#[derive(Debug, Drop)]
pub struct Text {
    text: String,
}

impl Model for Text {
    ghost Value = { List ℕ };

    ghost view = { λ t. string_bytes t.text };
}

/// The words of a command line, without the program's own name.
pub type Args = Sequence<Text>;

impl Text {
    /// Copies a text.
    pub fn of(alloc: Global, t: &str) -> Result<Text, NoMemory>
        ensures { IfOk result (λ text. text ≡ t.now) }
    {
        Ok(Text {
            text: String::from_str(alloc, t)?,
        })
    }

    /// Lends the text.
    pub fn as_str(&self) -> &str
        ensures { result.now ≡ self.now }
    {
        self.text.as_str()
    }
}
