ghost use Rattle.std.specs.Prelude.{◌≡◌, ◌+◌, ◌≤◌, ◌↔◌, [], ◌∷◌, length, drop, IsNone, IfSome, IfNone, ◌==◌};
ghost use Rattle.std.specs.List.{flat_map, position_or_len};
ghost use Rattle.rl_text.specs.Lines.{bytes_of, lines_of, longest_text};

use memchr::memchr;
use std::marker::Model;

/// One line of a text.
#[derive(Clone, Copy, Debug)]
pub struct TextLine<'a> {
    /// Its place in the text, counted from 1.
    pub number: u32,
    /// Its bytes, without the LF.
    pub text: &'a [u8],
    /// Whether an LF ended it. Only the last line can lack one.
    pub whole: bool,
}

/// The lines of a text, given one after another.
#[derive(Debug, Drop)]
pub struct Tokens<'a> {
    given: u32,
    rest: &'a [u8],
}

impl<'a> Model for Tokens<'a> {
    ghost use Rattle.std.specs.Prelude.{◌+◌, ◌≤◌, length};
    ghost use Rattle.rl_text.specs.Lines.{Reading, lines_of, longest_text};

    ghost Value = { Reading };

    ghost view = { λ t. record { given = t.given; left = lines_of t.rest.now } };

    ghost invariant = { λ t. t.given + length t.rest.now ≤ longest_text };
}

/// The place of the first LF, or the length where there is none.
fn line_end(text: &[u8]) -> usize
    ensures { result ≡ position_or_len (λ b. b == 10) text.now }
{
    memchr(b'\n', text).unwrap_or(text.len())
}

/// What follows the byte at `end`, which is nothing where there is no such byte.
fn after(text: &[u8], end: usize) -> &[u8]
    ensures { result.now ≡ drop (end + 1) text.now }
{
    if end < text.len() {
        &text[end + 1..]
    } else {
        &[]
    }
}

impl<'a> Tokens<'a> {
    /// Stands before the first line of the text.
    pub fn new(text: &'a [u8]) -> Tokens<'a>
        requires { length text.now ≤ longest_text }
        ensures given { result.given ≡ 0 }
        ensures left { result.left ≡ lines_of text.now }
        ensures joined { flat_map bytes_of result.left ≡ text.now }
    {
        Tokens {
            given: 0,
            rest: text,
        }
    }

    /// Gives the next line, and `None` at the end of the text and ever after.
    #[inline(always)]
    pub fn line(&mut self) -> Option<TextLine<'a>>
        ensures end { IsNone result ↔ (self.old.left ≡ []) }
        ensures first { IfSome result (λ line. self.old.left ≡
            record { text = line.text.now; whole = line.whole } ∷ self.new.left) }
        ensures number { IfSome result (λ line. line.number ≡ self.old.given + 1) }
        ensures counted { IfSome result (λ line. self.new.given ≡ line.number) }
        ensures limit { IfSome result (λ line. line.number ≤ longest_text) }
        ensures unchanged { IfNone result (self.new ≡ self.old) }
    {
        if self.rest.is_empty() {
            return None;
        }
        let rest = self.rest;
        let end = line_end(rest);
        self.given += 1;
        self.rest = after(rest, end);
        Some(TextLine {
            number: self.given,
            text: &rest[..end],
            whole: end < rest.len(),
        })
    }
}
