ghost use Rattle.std.specs.Prelude.{◌≡◌, ◌<◌, IfSome};
ghost use Rattle.rl_base.specs.declared.limits.TheConstants.{MAX_TRAINS};
ghost use Rattle.rl_base.specs.declared.job.Verb.TheVariants as verbs;
ghost use Rattle.rl_words.specs.Lock.{FitsPath, FitsLock};
ghost use Rattle.rl_words.specs.Mail.{FitsLetter, about_passage};
ghost use Rattle.rl_box.specs.Mind.{box_at};
ghost use Rattle.rl_box.specs.Steps.{path_of, other_side, connects, same_path, lock_turn, points_turn};

use crate::mind::{Answer, BoxMind, Work};
use rl_base::{Side, TrainId, Verb, joins, side_of};
use rl_tables::BoxTable;
use rl_words::{Letter, LockWord, Path};

fn path_of(t: TrainId, letter: Letter) -> Path
    ensures { result ≡ path_of t letter }
{
    Path {
        train: t,
        x: letter.x,
        y: letter.y,
    }
}

fn is_same(p: &Path, q: &Path) -> bool
    ensures { result ≡ same_path p.now q.now }
{
    p.train.0 == q.train.0 && p.x.0 == q.x.0 && p.y.0 == q.y.0
}

/// The other of the two sides.
pub fn other_side(side: Side) -> Side
    ensures { result ≡ other_side side }
{
    match side {
        Side::Left => Side::Right,
        Side::Right => Side::Left,
    }
}

fn connects(b: &BoxTable, letter: Letter, side: Side) -> bool
    ensures { result ≡ connects b.now letter side }
{
    joins(b.kind, letter.x, letter.y, side)
}

/// The mind of a box with this work that waits for no points.
fn with_work(work: Work) -> BoxMind
    ensures { result ≡ box_at work None }
{
    BoxMind {
        work,
        waiting: None,
    }
}

/// What a box that serves the letter of the train, and waits for no points, does with its lock word: the new word
/// and the mind after it.
pub(crate) fn serve(
    b: &BoxTable,
    t: TrainId,
    letter: Letter,
    word: LockWord,
) -> Option<(LockWord, BoxMind)>
    requires train { t.0 < MAX_TRAINS }
    requires letter { FitsLetter letter }
    requires word { FitsLock word }
    ensures step { result ≡ lock_turn b.now t letter letter.verb word }
    ensures fits { IfSome result (λ r. FitsLock r.0) }
{
    match letter.verb {
        Verb::Lock => lock(b, t, letter, word),
        Verb::Unlock => unlock(b, t, letter, word),
        Verb::Reserve | Verb::Release => None,
    }
}

/// It locks the passage where it connects it, asks for its points where it does so at the other side alone, and is
/// busy where another train has the lock.
fn lock(b: &BoxTable, t: TrainId, letter: Letter, word: LockWord) -> Option<(LockWord, BoxMind)>
    requires train { t.0 < MAX_TRAINS }
    requires verb { letter.verb ≡ verbs.Lock }
    requires letter { FitsLetter letter }
    requires word { FitsLock word }
    ensures step { result ≡ lock_turn b.now t letter verbs.Lock word }
    ensures fits { IfSome result (λ r. FitsLock r.0) }
{
    match word {
        LockWord::Free(side) => lock_free(b, t, letter, side),
        LockWord::Locked(path) if path.train.0 != t.0 => Some((
            word,
            with_work(Work::Say(t, letter, Answer::No(path.train))),
        )),
        _ => None,
    }
}

/// It locks the passage, or asks for its points.
fn lock_free(b: &BoxTable, t: TrainId, letter: Letter, side: Side) -> Option<(LockWord, BoxMind)>
    requires train { t.0 < MAX_TRAINS }
    requires verb { letter.verb ≡ verbs.Lock }
    requires letter { FitsLetter letter }
    ensures step { result ≡ lock_turn b.now t letter verbs.Lock (LockWord.Free side) }
    ensures fits { IfSome result (λ r. FitsLock r.0) }
{
    let path = path_of(t, letter);
    if connects(b, letter, side) {
        let after = with_work(Work::Say(t, letter, Answer::Yes));
        Some((LockWord::Locked(path), after))
    } else if connects(b, letter, other_side(side)) {
        let after = BoxMind {
            work: Work::Ready,
            waiting: Some(path),
        };
        Some((LockWord::Asked(path), after))
    } else {
        None
    }
}

/// It unlocks the passage where the train has locked it.
fn unlock(b: &BoxTable, t: TrainId, letter: Letter, word: LockWord) -> Option<(LockWord, BoxMind)>
    ensures step { result ≡ lock_turn b.now t letter verbs.Unlock word }
    ensures fits { IfSome result (λ r. FitsLock r.0) }
{
    match word {
        LockWord::Locked(path) if is_same(&path, &path_of(t, letter)) => {
            let side = side_of(b.kind, letter.x, letter.y)?;
            let after = with_work(Work::Say(t, letter, Answer::Yes));
            Some((LockWord::Free(side), after))
        }
        _ => None,
    }
}

/// What a box that waits for its points to stand for the path does with its lock word.
pub(crate) fn wait(b: &BoxTable, path: Path, word: LockWord) -> Option<(LockWord, BoxMind)>
    requires path { FitsPath path }
    ensures step { result ≡ points_turn b.now path word }
    ensures fits { IfSome result (λ r. FitsLock r.0) }
{
    match word {
        LockWord::Moved(moved) if is_same(&moved, &path) => {
            let letter = Letter {
                to: b.number,
                verb: Verb::Lock,
                x: path.x,
                y: path.y,
            };
            let after = with_work(Work::Say(path.train, letter, Answer::Yes));
            Some((LockWord::Locked(path), after))
        }
        _ => None,
    }
}
