ghost use Rattle.std.specs.Prelude.{◌≡◌, ◌∷◌, ◌++◌, ℕ, List, [], OnOk, OnErr, decimal};
ghost use Rattle.std.specs.List.{join_with_byte};
ghost use Rattle.rl_text.specs.Output.{IsBeginningOf};
ghost use Rattle.rl_text.specs.Words.{spaced, texts};

use itoa::Buffer;
use rl_base::NoMemory;
use std::alloc::Global;
use std::marker::Model;

/// A text that grows at its end. Contracts see it as its bytes. Where memory runs out while a word or a line
/// is appended, a part of it may stand behind what was there.
#[derive(Debug, Drop)]
pub struct Out {
    bytes: Vec<u8>,
}

impl Model for Out {
    ghost Value = { List ℕ };

    ghost view = { λ o. o.bytes.items };
}

impl Out {
    /// The empty text, which takes no memory.
    pub fn new(alloc: Global) -> Out
        ensures { result ≡ [] }
    {
        Out {
            bytes: Vec::new(alloc),
        }
    }

    /// Appends the bytes, all or none.
    pub fn text(&mut self, t: &[u8]) -> Result<(), NoMemory>
        ensures appended { OnOk result (self.new ≡ self.old ++ t.now) }
        ensures unchanged { OnErr result (self.new ≡ self.old) }
    {
        self.bytes.extend_from_slice(t)?;
        Ok(())
    }

    /// Appends the number in decimal, without sign or leading zeros, all or none.
    pub fn number(&mut self, n: u64) -> Result<(), NoMemory>
        ensures appended { OnOk result (self.new ≡ self.old ++ decimal n) }
        ensures unchanged { OnErr result (self.new ≡ self.old) }
    {
        let mut buffer = Buffer::new();
        self.text(buffer.format(n).as_bytes())
    }

    /// Appends a space and the word.
    pub fn word(&mut self, word: &[u8]) -> Result<(), NoMemory>
        ensures appended { OnOk result (self.new ≡ self.old ++ 32 ∷ word.now) }
        ensures begun { OnErr result (IsBeginningOf self.old self.new) }
    {
        self.text(b" ")?;
        self.text(word)
    }

    /// Appends a space and the number.
    pub fn count(&mut self, n: u32) -> Result<(), NoMemory>
        ensures appended { OnOk result (self.new ≡ self.old ++ 32 ∷ decimal n) }
        ensures begun { OnErr result (IsBeginningOf self.old self.new) }
    {
        self.text(b" ")?;
        self.number(u64::from(n))
    }

    /// Appends the words, each after a space.
    fn words(&mut self, words: &[&[u8]]) -> Result<(), NoMemory>
        ensures appended { OnOk result (self.new ≡ self.old ++ spaced (texts words.now)) }
        ensures begun { OnErr result (IsBeginningOf self.old self.new) }
    {
        for word in words {
            self.word(word)?;
        }
        Ok(())
    }

    /// Appends a line: the first word, the others each after a space, and LF.
    pub fn line(&mut self, first: &[u8], others: &[&[u8]]) -> Result<(), NoMemory>
        ensures appended { OnOk result
            (self.new ≡ self.old ++ (join_with_byte 32 (first.now ∷ texts others.now) ++ 10 ∷ [])) }
        ensures begun { OnErr result (IsBeginningOf self.old self.new) }
    {
        self.text(first)?;
        self.words(others)?;
        self.text(b"\n")
    }

    /// Lends the bytes.
    pub fn bytes(&self) -> &[u8]
        ensures { result.now ≡ self.now }
    {
        self.bytes.as_slice()
    }
}
