ghost use Rattle.std.specs.Prelude.{◌≡◌, ◌&&◌, IfSome, nat_lt};
ghost use Rattle.rl_words.specs.Mail.{FitsLetter, FitsMail};
ghost use Rattle.rl_words.specs.Readings.{is_refusable};
ghost use Rattle.rl_box.specs.Mind.{IsAnswer};
ghost use Rattle.rl_box.specs.Steps.{has_arms, answered, mail_turn};

use crate::mind::{Answer, Work};
use rl_base::{TrainId, Verb, arm_count};
use rl_tables::BoxTable;
use rl_words::{Letter, MailWord};

/// Whether the box has the arms of the letter.
fn has_arms(b: &BoxTable, letter: &Letter) -> bool
    ensures { result ≡ has_arms b.now letter.now }
{
    let arms = arm_count(b.kind);
    letter.x.0 < arms && letter.y.0 < arms
}

fn is_refusable(verb: Verb) -> bool
    ensures { result ≡ is_refusable verb }
{
    matches!(verb, Verb::Reserve | Verb::Lock)
}

/// A ready box takes a letter to it from the mail word of the train.
pub(crate) fn take(b: &BoxTable, t: TrainId, word: MailWord) -> Option<(MailWord, Work)>
    requires { FitsMail word }
    ensures step { result ≡ mail_turn b.now t Work.Ready word }
    ensures fits { IfSome result (λ r. FitsMail r.0) }
{
    match word {
        MailWord::Ask(letter) if letter.to.0 == b.number.0 && has_arms(b, &letter) => Some((
            MailWord::Taken(letter),
            Work::Serve(t, letter),
        )),
        _ => None,
    }
}

/// The letter with its answer. Only a reservation and a lock can be refused.
fn answered(letter: Letter, answer: Answer) -> Option<MailWord>
    requires letter { FitsLetter letter }
    requires answer { IsAnswer answer }
    ensures word { result ≡ answered letter answer }
    ensures fits { IfSome result FitsMail }
{
    match answer {
        Answer::Yes => Some(MailWord::Yes(letter)),
        Answer::No(holder) if is_refusable(letter.verb) => Some(MailWord::No(letter, holder)),
        Answer::No(_) => None,
    }
}

/// A box that says the answer to a letter of train `to` writes it into the mail word of that train.
pub(crate) fn say(
    b: &BoxTable,
    t: TrainId,
    to: TrainId,
    letter: Letter,
    answer: Answer,
    word: MailWord,
) -> Option<(MailWord, Work)>
    requires letter { FitsLetter letter }
    requires answer { IsAnswer answer }
    ensures step { result ≡ mail_turn b.now t (Work.Say to letter answer) word }
    ensures fits { IfSome result (λ r. FitsMail r.0) }
{
    match word {
        MailWord::Taken(asked) if t.0 == to.0 && asked.is_same(&letter) => {
            Some((answered(letter, answer)?, Work::Ready))
        }
        _ => None,
    }
}
