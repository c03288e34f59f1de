ghost use Rattle.std.specs.Prelude.{◌≡◌, ◌≢◌, ◌≤◌, ◌∷◌, [], ℕ, List, IfSome, IfNone, codes, decimal};
ghost use Rattle.rl_base.specs.declared.ids.TrainId.{TrainId};
ghost use Rattle.rl_base.specs.Tries.{AreFewTries};
ghost use Rattle.rl_base.specs.declared.limits.TheConstants.{MIN_TRIES};
ghost use Rattle.rl_model.specs.declared.report.Fate.{Fate};
ghost use Rattle.rl_model.specs.declared.report.Outcome.{Outcome};
ghost use Rattle.rl_model.specs.Network.{IsTrainOf};
ghost use Rattle.rl_model.specs.ReportText.{fate_word};
ghost use Rattle.rl_report.specs.Words.{IsCount, outcome_words};
ghost use Rattle.rl_report.specs.Grammar.{IsOutcomeLine};

use crate::report::fate_word;
use crate::words::Words;
use rl_base::TrainId;
use rl_base::limits::{MAX_MOVES, MAX_TRIES, MIN_TRIES};
use rl_model::{Fate, Outcome};
use rl_net::Network;
use rl_text::read_number;

/// The fate of that name.
fn fate_of(word: &[u8]) -> Option<Fate>
    ensures some { IfSome result (λ fate. word.now ≡ fate_word fate) }
    ensures none { IfNone result ((fate : Fate) → word.now ≢ fate_word fate) }
{
    if word == fate_word(Fate::Arrived) {
        Some(Fate::Arrived)
    } else if word == fate_word(Fate::Spent) {
        Some(Fate::Spent)
    } else if word == fate_word(Fate::Underway) {
        Some(Fate::Underway)
    } else {
        None
    }
}

/// The number that the word writes, if it is at most `MAX_MOVES`.
fn count_of(word: &[u8]) -> Option<u32>
    ensures some { IfSome result (λ n. IsCount n × (word.now ≡ decimal n)) }
    ensures none { IfNone result ((n : ℕ) → IsCount n → word.now ≢ decimal n) }
{
    match read_number(word) {
        Some(n) if n <= MAX_MOVES as u64 => Some(n as u32),
        _ => None,
    }
}

/// Reads the next word as a number.
fn count(words: &mut Words<'_>) -> Option<u32>
    ensures some { IfSome result (λ n. IsCount n × (words.old ≡ decimal n ∷ words.new)) }
    ensures none { IfNone result ((n : ℕ) (rest : List (List ℕ)) → IsCount n → words.old ≢ decimal n ∷ rest) }
{
    count_of(words.next()?)
}

/// Reads the last words of a train's line: its two numbers.
fn counts(words: &mut Words<'_>) -> Option<(u32, u32)>
    ensures some { IfSome result (λ x. IsCount x.0 × IsCount x.1 × (words.old ≡ decimal x.0 ∷ decimal x.1 ∷ [])) }
    ensures none { IfNone result ((made refused : ℕ) → IsCount made → IsCount refused
        → words.old ≢ decimal made ∷ decimal refused ∷ []) }
{
    let made = count(words)?;
    let refused = count(words)?;
    if words.is_at_end() {
        Some((made, refused))
    } else {
        None
    }
}

/// Reads the last words of a train's line: its fate and its numbers.
fn outcome(words: &mut Words<'_>) -> Option<Outcome>
    ensures some { IfSome result (λ o. IsCount o.made × IsCount o.refused
        × (words.old ≡ fate_word o.fate ∷ decimal o.made ∷ decimal o.refused ∷ [])) }
    ensures none { IfNone result ((o : Outcome) → IsCount o.made → IsCount o.refused
        → words.old ≢ fate_word o.fate ∷ decimal o.made ∷ decimal o.refused ∷ []) }
{
    let fate = fate_of(words.next()?)?;
    let (made, refused) = counts(words)?;
    Some(Outcome {
        fate,
        made,
        refused,
    })
}

/// Reads the words of a train's line.
fn read_outcome_words(words: &mut Words<'_>, net: &Network) -> Option<(TrainId, Outcome)>
    ensures some { IfSome result (λ x. IsTrainOf net.now x.0 × IsCount x.1.made × IsCount x.1.refused
        × (words.old ≡ outcome_words net.now x.0.0 x.1)) }
    ensures none { IfNone result ((t : TrainId) (o : Outcome) → IsTrainOf net.now t → IsCount o.made → IsCount o.refused
        → words.old ≢ outcome_words net.now t.0 o) }
{
    if words.next()? != b"train".as_slice() {
        return None;
    }
    let t = words.train(net)?;
    let o = outcome(words)?;
    Some((t, o))
}

/// The train and the outcome whose line this is, given without its LF. `None` for every other text.
pub fn read_outcome(net: &Network, line: &[u8]) -> Option<(TrainId, Outcome)>
    ensures some { IfSome result (λ x. IsOutcomeLine net.now line.now x.0.0 x.1) }
    ensures none { IfNone result ((t : TrainId) (o : Outcome) → IsOutcomeLine net.now line.now t.0 o → ⊥) }
{
    // What acceptance gave, for the proof.
    net.accepted();
    read_outcome_words(&mut Words::new(line), net)
}

/// The number that the word writes, if it is one of attempts.
fn tries_of(word: &[u8]) -> Option<u32>
    ensures some { IfSome result (λ n. (MIN_TRIES ≤ n) × AreFewTries n × (word.now ≡ decimal n)) }
    ensures none { IfNone result ((n : ℕ) → MIN_TRIES ≤ n → AreFewTries n → word.now ≢ decimal n) }
{
    match read_number(word) {
        Some(n) if u64::from(MIN_TRIES) <= n && n <= u64::from(MAX_TRIES) => Some(n as u32),
        _ => None,
    }
}

/// Reads the words of the second line: the attempts.
pub(crate) fn read_tries(words: &mut Words<'_>) -> Option<u32>
    ensures some { IfSome result (λ n. (MIN_TRIES ≤ n) × AreFewTries n
        × (words.old ≡ codes "tries" ∷ decimal n ∷ [])) }
    ensures none { IfNone result ((n : ℕ) → MIN_TRIES ≤ n → AreFewTries n
        → words.old ≢ codes "tries" ∷ decimal n ∷ []) }
{
    if words.next()? != b"tries".as_slice() {
        return None;
    }
    let n = tries_of(words.next()?)?;
    if words.is_at_end() { Some(n) } else { None }
}
