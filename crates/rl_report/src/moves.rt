ghost use Rattle.std.specs.Prelude.{◌≡◌, ◌≢◌, ◌∷◌, ◌++◌, [], ℕ, List, IfSome, IfNone};
ghost use Rattle.rl_model.specs.declared.moves.Move.{Move};
ghost use Rattle.rl_model.specs.Moves.{IsMoveOf};
ghost use Rattle.rl_model.specs.ReportText.{move_words};
ghost use Rattle.rl_report.specs.declared.moves.MoveName.{MoveName};
ghost use Rattle.rl_text.specs.Words.{words_of};
ghost use Rattle.rl_report.specs.MoveNames.{name_word};
ghost use Rattle.rl_report.specs.Grammar.{IsMoveLine};

use crate::forms::{
    box_side, only_box, train_box, train_box_segments, train_box_train, train_segment,
    train_segment_box, train_segment_box_train,
};
use crate::words::Words;
use rl_model::Move;
use rl_net::Network;

/// The first word of a move's line.
#[derive(Clone, Copy)]
pub(crate) enum MoveName {
    Reserve,
    Release,
    Lock,
    Unlock,
    Throw,
    Settle,
    Enter,
    Leave,
    Refuse,
    Bar,
}

impl MoveName {
    /// How it is written.
    pub(crate) fn word(self) -> &'static [u8]
        ensures { result.now ≡ name_word self }
    {
        match self {
            MoveName::Reserve => b"reserve",
            MoveName::Release => b"release",
            MoveName::Lock => b"lock",
            MoveName::Unlock => b"unlock",
            MoveName::Throw => b"throw",
            MoveName::Settle => b"settle",
            MoveName::Enter => b"enter",
            MoveName::Leave => b"leave",
            MoveName::Refuse => b"refuse",
            MoveName::Bar => b"bar",
        }
    }
}

/// The name that is this word.
fn move_name(word: &[u8]) -> Option<MoveName>
    ensures some { IfSome result (λ name. word.now ≡ name_word name) }
    ensures none { IfNone result ((name : MoveName) → word.now ≢ name_word name) }
{
    if word == MoveName::Reserve.word() {
        Some(MoveName::Reserve)
    } else if word == MoveName::Release.word() {
        Some(MoveName::Release)
    } else if word == MoveName::Lock.word() {
        Some(MoveName::Lock)
    } else if word == MoveName::Unlock.word() {
        Some(MoveName::Unlock)
    } else if word == MoveName::Throw.word() {
        Some(MoveName::Throw)
    } else if word == MoveName::Settle.word() {
        Some(MoveName::Settle)
    } else if word == MoveName::Enter.word() {
        Some(MoveName::Enter)
    } else if word == MoveName::Leave.word() {
        Some(MoveName::Leave)
    } else if word == MoveName::Refuse.word() {
        Some(MoveName::Refuse)
    } else if word == MoveName::Bar.word() {
        Some(MoveName::Bar)
    } else {
        None
    }
}

/// Reads what follows the first word of a move's line.
fn read_named(name: MoveName, words: &mut Words<'_>, net: &Network) -> Option<Move>
    ensures some { IfSome result (λ m. IsMoveOf net.now m × (name_word name ∷ words.old ≡ move_words net.now m)) }
    ensures none { IfNone result ((m : Move) → IsMoveOf net.now m → name_word name ∷ words.old ≢ move_words net.now m) }
{
    match name {
        MoveName::Reserve => {
            let (t, s, b) = train_segment_box(words, net)?;
            Some(Move::Reserve { t, s, b })
        }
        MoveName::Release => {
            let (t, s, b) = train_segment_box(words, net)?;
            Some(Move::Release { t, s, b })
        }
        MoveName::Lock => {
            let (t, b, s, s2) = train_box_segments(words, net)?;
            Some(Move::Lock { t, b, s, s2 })
        }
        MoveName::Unlock => {
            let (t, b) = train_box(words, net)?;
            Some(Move::Unlock { t, b })
        }
        MoveName::Throw => {
            let b = only_box(words, net)?;
            Some(Move::Throw { b })
        }
        MoveName::Settle => {
            let (b, side) = box_side(words, net)?;
            Some(Move::Settle { b, side })
        }
        MoveName::Enter => {
            let (t, b, s, s2) = train_box_segments(words, net)?;
            Some(Move::Enter { t, b, s, s2 })
        }
        MoveName::Leave => {
            let (t, s) = train_segment(words, net)?;
            Some(Move::Leave { t, s })
        }
        MoveName::Refuse => {
            let (t, s, b, u) = train_segment_box_train(words, net)?;
            Some(Move::Refuse { t, s, b, u })
        }
        MoveName::Bar => {
            let (t, b, u) = train_box_train(words, net)?;
            Some(Move::Bar { t, b, u })
        }
    }
}

/// The name with which the line begins, told by two of its letters, if it begins with one.
fn likely_name(line: &[u8]) -> MoveName {
    match (line.get(0), line.get(2)) {
        (Some(b'r'), Some(b's')) => MoveName::Reserve,
        (Some(b'r'), Some(b'l')) => MoveName::Release,
        (Some(b'r'), _) => MoveName::Refuse,
        (Some(b'l'), Some(b'c')) => MoveName::Lock,
        (Some(b'l'), _) => MoveName::Leave,
        (Some(b'u'), _) => MoveName::Unlock,
        (Some(b't'), _) => MoveName::Throw,
        (Some(b's'), _) => MoveName::Settle,
        (Some(b'e'), _) => MoveName::Enter,
        _ => MoveName::Bar,
    }
}

/// What follows the name and a space, if the line begins with them.
fn after_name(line: &[u8], name: MoveName) -> Option<&[u8]>
    ensures { IfSome result (λ rest. words_of line.now ≡ name_word name ∷ words_of rest.now) }
{
    let rest = line.strip_prefix(name.word())?;
    rest.strip_prefix(b" ".as_slice())
}

/// The name that is the first word of the line, and the words after it.
fn first_name(line: &[u8]) -> Option<(MoveName, Words<'_>)>
    ensures some { IfSome result (λ first. words_of line.now ≡ name_word first.0 ∷ first.1) }
    ensures none { IfNone result ((name : MoveName) (rest : List (List ℕ))
        → words_of line.now ≢ name_word name ∷ rest) }
{
    let likely = likely_name(line);
    if let Some(rest) = after_name(line, likely) {
        return Some((likely, Words::new(rest)));
    }
    let mut words = Words::new(line);
    let name = move_name(words.next()?)?;
    Some((name, words))
}

/// Reads the words of a move's line.
fn read_words(line: &[u8], net: &Network) -> Option<Move>
    ensures some { IfSome result (λ m. IsMoveOf net.now m × (words_of line.now ≡ move_words net.now m)) }
    ensures none { IfNone result ((m : Move) → IsMoveOf net.now m → words_of line.now ≢ move_words net.now m) }
{
    let (name, mut words) = first_name(line)?;
    read_named(name, &mut words, net)
}

/// The move whose line this is, given without its LF. `None` for every other text.
pub fn read_move(net: &Network, line: &[u8]) -> Option<Move>
    ensures some { IfSome result (λ m. IsMoveLine net.now line.now m) }
    ensures none { IfNone result ((m : Move) → IsMoveLine net.now line.now m → ⊥) }
{
    // What acceptance gave, for the proof.
    net.accepted();
    read_words(line, net)
}
