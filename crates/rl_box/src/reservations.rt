ghost use Rattle.std.specs.Prelude.{◌≡◌, ◌<◌, IfSome};
ghost use Rattle.rl_base.specs.declared.limits.TheConstants.{MAX_TRAINS};
ghost use Rattle.rl_base.specs.declared.job.Verb.TheVariants as verbs;
ghost use Rattle.rl_words.specs.Resv.{FitsResv, arm_in};
ghost use Rattle.rl_box.specs.Mind.{IsAnswer};
ghost use Rattle.rl_box.specs.Steps.{resv_turn};

use crate::mind::Answer;
use rl_base::{TrainId, Verb};
use rl_words::{Letter, ResvWord};

/// What a box that serves the letter of the train does with its reservation word: the new word and the answer.
pub(crate) fn serve(t: TrainId, letter: Letter, word: ResvWord) -> Option<(ResvWord, Answer)>
    requires train { t.0 < MAX_TRAINS }
    requires arm { letter.x.0 < 4 }
    requires word { FitsResv word }
    ensures step { result ≡ resv_turn t letter letter.verb word (arm_in word letter.x.0) }
    ensures fits { IfSome result (λ r. FitsResv r.0) }
{
    match letter.verb {
        Verb::Reserve => reserve(t, letter, word),
        Verb::Release => release(t, letter, word),
        Verb::Lock | Verb::Unlock => None,
    }
}

/// It reserves the arm where it is free, and refuses it where another train holds it.
fn reserve(t: TrainId, letter: Letter, word: ResvWord) -> Option<(ResvWord, Answer)>
    requires train { t.0 < MAX_TRAINS }
    requires arm { letter.x.0 < 4 }
    requires word { FitsResv word }
    ensures step { result ≡ resv_turn t letter verbs.Reserve word (arm_in word letter.x.0) }
    ensures fits { IfSome result (λ r. FitsResv r.0) }
{
    match word.arm(letter.x) {
        None => Some((word.with_arm(letter.x, Some(t)), Answer::Yes)),
        Some(holder) if holder.0 != t.0 => Some((word, Answer::No(holder))),
        Some(_) => None,
    }
}

/// It releases the arm where the train holds it.
fn release(t: TrainId, letter: Letter, word: ResvWord) -> Option<(ResvWord, Answer)>
    requires arm { letter.x.0 < 4 }
    requires word { FitsResv word }
    ensures step { result ≡ resv_turn t letter verbs.Release word (arm_in word letter.x.0) }
    ensures fits { IfSome result (λ r. FitsResv r.0) }
{
    match word.arm(letter.x) {
        Some(holder) if holder.0 == t.0 => Some((word.with_arm(letter.x, None), Answer::Yes)),
        _ => None,
    }
}
