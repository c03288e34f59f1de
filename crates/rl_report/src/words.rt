ghost use Rattle.std.specs.Prelude.{◌≡◌, ◌≢◌, ◌<◌, ◌↔◌, ◌==◌, ℕ, List, [], ◌∷◌, length, IfSome, IfNone, IsTrue};
ghost use Rattle.std.specs.List.{position_or_len};
ghost use Rattle.rl_base.specs.declared.ids.SegId.{SegId};
ghost use Rattle.rl_base.specs.declared.ids.BoxId.{BoxId};
ghost use Rattle.rl_base.specs.declared.ids.TrainId.{TrainId};
ghost use Rattle.rl_text.specs.Words.{words_of};
ghost use Rattle.rl_report.specs.Words.{words_in};
ghost use Rattle.rl_model.specs.Network.{segment_name, box_name, train_name};
ghost use Rattle.rl_model.specs.Network.{IsTrainOf, IsSegmentOf, IsBoxOf};

use rl_base::{BoxId, SegId, TrainId};
use rl_net::{NameHint, Network};
use std::marker::Model;

/// The words of a line that are left, given one after another. Contracts see it as their list.
#[derive(Drop)]
pub(crate) struct Words<'a> {
    rest: Option<&'a [u8]>,
}

impl<'a> Model for Words<'a> {
    ghost use Rattle.std.specs.Prelude.{ℕ, List};
    ghost use Rattle.rl_report.specs.Words.{words_in};

    ghost Value = { List (List ℕ) };

    ghost view = { λ w. words_in w.rest };
}

/// A word, and the hint of the name that it may be.
#[derive(Clone, Copy)]
struct Word<'a> {
    text: &'a [u8],
    hint: NameHint,
}

/// The place of the first space, or the length where there is none, and the hint of the name before it.
#[inline(always)]
fn word_end(text: &[u8]) -> (usize, NameHint)
    ensures { result.0 ≡ position_or_len (λ b. b == 32) text.now }
{
    let mut hint = NameHint::EMPTY;
    for (i, b) in text.iter().enumerate() {
        if *b == b' ' {
            return (i, hint);
        }
        hint = hint.and(*b);
    }
    (text.len(), hint)
}

/// The first word of a text, and what follows the space after it.
#[inline(always)]
fn first_word(text: &[u8]) -> (Word<'_>, Option<&[u8]>)
    ensures { words_of text.now ≡ result.0.text.now ∷ words_in result.1 }
{
    let (end, hint) = word_end(text);
    if end < text.len() {
        let word = Word {
            text: &text[..end],
            hint,
        };
        (word, Some(&text[end + 1..]))
    } else {
        (Word { text, hint }, None)
    }
}

impl<'a> Words<'a> {
    /// Stands before the first word of the line.
    pub(crate) fn new(line: &'a [u8]) -> Words<'a>
        ensures { result ≡ words_of line.now }
    {
        Words { rest: Some(line) }
    }

    /// Gives the next word, `None` after the last one.
    pub(crate) fn next(&mut self) -> Option<&'a [u8]>
        ensures end { IfNone result (self.old ≡ []) }
        ensures first { IfSome result (λ word. self.old ≡ word.now ∷ self.new) }
    {
        match self.next_hinted() {
            Some(word) => Some(word.text),
            None => None,
        }
    }

    /// Gives the next word with its hint, `None` after the last one.
    #[inline(always)]
    fn next_hinted(&mut self) -> Option<Word<'a>>
        ensures end { IfNone result (self.old ≡ []) }
        ensures first { IfSome result (λ word. self.old ≡ word.text.now ∷ self.new) }
    {
        match self.rest {
            Some(text) => {
                let (word, rest) = first_word(text);
                self.rest = rest;
                Some(word)
            }
            None => None,
        }
    }

    /// Whether no word is left.
    pub(crate) fn is_at_end(&self) -> bool
        ensures { IsTrue result ↔ (self.now ≡ []) }
    {
        self.rest.is_none()
    }

    /// Reads the next word as the name of a train.
    #[inline(always)]
    pub(crate) fn train(&mut self, net: &Network) -> Option<TrainId>
        ensures some { IfSome result (λ t. IsTrainOf net.now t × (self.old ≡ train_name net.now t.0 ∷ self.new)) }
        ensures none { IfNone result ((t : TrainId) (rest : List (List ℕ)) → IsTrainOf net.now t
            → self.old ≢ train_name net.now t.0 ∷ rest) }
    {
        match self.next_hinted() {
            Some(word) => net.find_train_by(word.text, word.hint),
            None => None,
        }
    }

    /// Reads the next word as the name of a segment.
    #[inline(always)]
    pub(crate) fn segment(&mut self, net: &Network) -> Option<SegId>
        ensures some { IfSome result (λ s. IsSegmentOf net.now s × (self.old ≡ segment_name net.now s.0 ∷ self.new)) }
        ensures none { IfNone result ((s : SegId) (rest : List (List ℕ)) → IsSegmentOf net.now s
            → self.old ≢ segment_name net.now s.0 ∷ rest) }
    {
        match self.next_hinted() {
            Some(word) => net.find_seg_by(word.text, word.hint),
            None => None,
        }
    }

    /// Reads the next word as the name of a box.
    #[inline(always)]
    pub(crate) fn switch_box(&mut self, net: &Network) -> Option<BoxId>
        ensures some { IfSome result (λ b. IsBoxOf net.now b × (self.old ≡ box_name net.now b.0 ∷ self.new)) }
        ensures none { IfNone result ((b : BoxId) (rest : List (List ℕ)) → IsBoxOf net.now b
            → self.old ≢ box_name net.now b.0 ∷ rest) }
    {
        match self.next_hinted() {
            Some(word) => net.find_box_by(word.text, word.hint),
            None => None,
        }
    }
}
