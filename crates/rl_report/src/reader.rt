ghost use Rattle.std.specs.Prelude.{◌≡◌, ◌≢◌, ◌+◌, ◌<◌, ◌≤◌, ◌↔◌, [], ◌∷◌, ◌++◌, ℕ, List};
ghost use Rattle.std.specs.Prelude.{length, drop, codes, Some, IsSome, IsTrue, IfSome, IfNone, OnOk, IfOk, IfErr};
ghost use Rattle.std.specs.Option.{option_copied};
ghost use Rattle.rl_base.specs.Tries.{AreFewTries};
ghost use Rattle.rl_base.specs.declared.limits.TheConstants.{MIN_TRIES};
ghost use Rattle.rl_text.specs.Lines.{Reading, lines_of, longest_text};
ghost use Rattle.rl_model.specs.declared.moves.Move.{Move};
ghost use Rattle.rl_model.specs.declared.network.NetworkPlan.{NetworkPlan};
ghost use Rattle.rl_model.specs.declared.report.Outcome.{Outcome};
ghost use Rattle.rl_model.specs.declared.report.Report.{Report};
ghost use Rattle.rl_model.specs.Moves.{IsMoveOf};
ghost use Rattle.rl_model.specs.Network.{IsTrainOf};
ghost use Rattle.rl_model.specs.Network.{IsNetwork};
ghost use Rattle.rl_report.specs.Grammar.{IsOutcomeLine, IsTextOf, IsFirstFault};
ghost use Rattle.rl_report.specs.Reading.{tries_line, next_text, HasNoMove, HasMoves, HasRead};

use crate::moves::read_move;
use crate::outcomes::{read_outcome, read_tries};
use crate::words::Words;
use rl_base::TrainId;
use rl_model::{Move, Outcome};
use rl_net::Network;
use rl_text::{TextLine, Tokens};
use std::marker::Model;

/// The lines of a report, read one after another.
#[derive(Drop)]
pub struct ReportLines<'a> {
    given: u32,
    next: Option<TextLine<'a>>,
    tokens: Tokens<'a>,
}

impl<'a> Model for ReportLines<'a> {
    ghost use Rattle.std.specs.Prelude.{◌≡◌, ◌≤◌, length};
    ghost use Rattle.rl_text.specs.Lines.{Reading, longest_text};
    ghost use Rattle.rl_report.specs.Lines.{left_in, Counts};

    ghost Value = { Reading };

    ghost view = { λ r. record { given = r.given; left = left_in r.next r.tokens.left } };

    ghost invariant = { λ r. Counts r.given r.next r.tokens };
}

impl<'a> ReportLines<'a> {
    /// Stands before the first line of the text.
    pub fn new(text: &'a [u8]) -> ReportLines<'a>
        requires { length text.now ≤ longest_text }
        ensures given { result.given ≡ 0 }
        ensures left { result.left ≡ lines_of text.now }
    {
        let mut tokens = Tokens::new(text);
        let next = tokens.line();
        ReportLines {
            given: 0,
            next,
            tokens,
        }
    }

    /// The text of the next line, if an LF ends it.
    fn peek(&self) -> Option<&'a [u8]>
        ensures { option_copied result ≡ next_text self.now.left }
    {
        match self.next {
            Some(line) if line.whole => Some(line.text),
            _ => None,
        }
    }

    /// Goes behind the next line.
    fn pass(&mut self)
        ensures left { self.new.left ≡ drop 1 self.old.left }
        ensures count { self.new.given + length self.new.left ≡ self.old.given + length self.old.left }
    {
        if self.next.is_some() {
            self.given += 1;
            self.next = self.tokens.line();
        }
    }

    /// Reads the first two lines: the attempts, or the number of the first of the two that isn't as it must be.
    /// It goes behind both.
    pub fn head(&mut self) -> Result<u32, u32>
        ensures left { self.new.left ≡ drop 2 self.old.left }
        ensures count { self.new.given + length self.new.left ≡ self.old.given + length self.old.left }
        ensures ok { IfOk result (λ tries. (net : NetworkPlan) (text : List ℕ) (moves : List Move) (reading : Reading)
            → self.old.left ≡ lines_of text → HasMoves net text moves reading
            → HasRead net text (record { tries = tries; moves = moves; outcomes = [] }) reading) }
        ensures err { IfErr result (λ n. (net : NetworkPlan) (text : List ℕ)
            → IsNetwork net → self.old.left ≡ lines_of text → IsFirstFault net text n) }
    {
        let first = is_first_line(self.peek());
        self.pass();
        let tries = tries_in(self.peek());
        self.pass();
        if !first {
            return Err(1);
        }
        match tries {
            Some(tries) => Ok(tries),
            None => Err(2),
        }
    }

    /// Reads the next line as a move's. `None` where it isn't one, and then it is still the next.
    pub fn next_move(&mut self, net: &Network) -> Option<Move>
        ensures of { IfSome result (IsMoveOf net.now) }
        ensures some { IfSome result (λ m. (text : List ℕ) (moves : List Move)
            → HasMoves net.now text moves self.old → HasMoves net.now text (moves ++ m ∷ []) self.new) }
        ensures fewer { IfSome result (λ m. length self.new.left < length self.old.left) }
        ensures none { IfNone result (HasNoMove net.now self.old.left) }
        ensures unchanged { IfNone result (self.new ≡ self.old) }
    {
        let m = read_move(net, self.peek()?)?;
        self.pass();
        Some(m)
    }

    /// Reads the next line as that of the train, which is the next of whom no line was read, or answers the
    /// number of the line.
    pub fn next_outcome(&mut self, net: &Network, t: TrainId) -> Result<Outcome, u32>
        requires { IsTrainOf net.now t }
        ensures ok { IfOk result (λ o. (text : List ℕ) (report : Report)
            → HasRead net.now text report self.old → length report.outcomes ≡ t.0
            → HasRead net.now text (record report { outcomes = report.outcomes ++ o ∷ [] }) self.new) }
        ensures err { IfErr result (λ n. (text : List ℕ) (report : Report)
            → HasRead net.now text report self.old → length report.outcomes ≡ t.0
            → (report.outcomes ≡ [] → HasNoMove net.now self.old.left)
            → IsFirstFault net.now text n) }
    {
        // What acceptance gave, for the proof.
        net.accepted();
        match self.peek() {
            Some(line) => match outcome_of(net, t, line) {
                Some(o) => {
                    self.pass();
                    Ok(o)
                }
                None => Err(self.next_number()),
            },
            None => Err(self.next_number()),
        }
    }

    /// Reads the last line, where the lines of all trains were read, or answers the number of the first that
    /// isn't as it must be.
    pub fn end(&mut self, net: &Network) -> Result<(), u32>
        ensures ok { OnOk result ((text : List ℕ) (report : Report)
            → HasRead net.now text report self.old → length report.outcomes ≡ length net.now.trains
            → IsTextOf net.now report text) }
        ensures err { IfErr result (λ n. (text : List ℕ) (report : Report)
            → HasRead net.now text report self.old → length report.outcomes ≡ length net.now.trains
            → (report.outcomes ≡ [] → HasNoMove net.now self.old.left)
            → IsFirstFault net.now text n) }
    {
        // What acceptance gave, for the proof.
        net.accepted();
        if !is_last_line(self.peek()) {
            return Err(self.next_number());
        }
        self.pass();
        if self.is_at_end() {
            Ok(())
        } else {
            Err(self.next_number())
        }
    }

    /// The number of the next line, from 1.
    fn next_number(&self) -> u32
        ensures { result ≡ self.now.given + 1 }
    {
        self.given + 1
    }

    /// Whether no line is left.
    fn is_at_end(&self) -> bool
        ensures { IsTrue result ↔ (self.now.left ≡ []) }
    {
        self.next.is_none()
    }
}

fn is_first_line(line: Option<&[u8]>) -> bool
    ensures { IsTrue result ↔ (option_copied line.entry ≡ Some (codes "relis report 1")) }
{
    match line {
        Some(text) => text == b"relis report 1".as_slice(),
        None => false,
    }
}

fn is_last_line(line: Option<&[u8]>) -> bool
    ensures { IsTrue result ↔ (option_copied line.entry ≡ Some (codes "end")) }
{
    match line {
        Some(text) => text == b"end".as_slice(),
        None => false,
    }
}

/// The attempts that the line gives.
fn tries_in(line: Option<&[u8]>) -> Option<u32>
    ensures some { IfSome result (λ n. (MIN_TRIES ≤ n) × AreFewTries n
        × (option_copied line.entry ≡ Some (tries_line n).text)) }
    ensures none { IfNone result ((n : ℕ) → MIN_TRIES ≤ n → AreFewTries n
        → option_copied line.entry ≢ Some (tries_line n).text) }
{
    match line {
        Some(text) => tries_of_line(text),
        None => None,
    }
}

fn tries_of_line(text: &[u8]) -> Option<u32>
    ensures some { IfSome result (λ n. (MIN_TRIES ≤ n) × AreFewTries n × (text.now ≡ (tries_line n).text)) }
    ensures none { IfNone result ((n : ℕ) → MIN_TRIES ≤ n → AreFewTries n → text.now ≢ (tries_line n).text) }
{
    read_tries(&mut Words::new(text))
}

/// The outcome of the train that the line gives.
fn outcome_of(net: &Network, t: TrainId, line: &[u8]) -> Option<Outcome>
    ensures some { IfSome result (λ o. IsOutcomeLine net.now line.now t.0 o) }
    ensures none { IfNone result ((o : Outcome) → IsOutcomeLine net.now line.now t.0 o → ⊥) }
{
    // What acceptance gave, for the proof.
    net.accepted();
    match read_outcome(net, line) {
        Some((u, o)) if u == t => Some(o),
        _ => None,
    }
}
