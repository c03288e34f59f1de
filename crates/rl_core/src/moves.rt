ghost use Rattle.std.specs.Prelude.{◌≡◌, ◌<◌};
ghost use Rattle.rl_base.specs.Layout.{word_count};
ghost use Rattle.rl_tables.specs.Kept.{line_kind};
ghost use Rattle.rl_tables.specs.Starts.{layout_of};
ghost use Rattle.rl_protocol.specs.TableLine.{row_at};
ghost use Rattle.rl_safety.specs.Moves.{arm_move, resv_move, lock_on, lock_move, denial, mail_move, run_move, move_of};
ghost use Rattle.rl_safety.specs.Railway.{segment_of};

use rl_base::{Arm, BoxId, Kind, SegId, TrainId, Verb, WordKind, side_of};
use rl_model::Move;
use rl_record::Event;
use rl_steps::numbered;
use rl_tables::{Line, StepRow};
use rl_words::{Letter, LockWord, MailWord, Path, ResvWord, RunWord, payload_of};

/// The segment at an arm of a box, and segment 0 where there is none.
fn segment_at(line: &Line, b: BoxId, x: Arm) -> SegId
    ensures { result ≡ segment_of line.now b x.0 }
{
    if b.0 >= line.layout().boxes {
        return SegId(0);
    }
    let table = line.box_table(b);
    let found = match x.0 {
        0 => table.seg0,
        1 => table.seg1,
        2 => table.seg2,
        3 => table.seg3,
        _ => None,
    };
    match found {
        Some(s) => s,
        None => SegId(0),
    }
}

/// The kind of a box; one that isn't there counts as a buffer.
fn kind_of(line: &Line, b: BoxId) -> Kind
    ensures { result ≡ line_kind line.now b.0 }
{
    if b.0 < line.layout().boxes {
        line.box_table(b).kind
    } else {
        Kind::Buffer
    }
}

/// Step `k` of the route of a train.
fn row_of(line: &Line, t: TrainId, k: u32) -> Option<StepRow>
    ensures { result ≡ row_at line.now t.0 k }
{
    if t.0 >= line.layout().trains {
        return None;
    }
    let rows = &line.train_table(t).rows;
    if (k as usize) < rows.len() {
        Some(*rows.at(k as usize))
    } else {
        None
    }
}

/// An arm that was free and is held was reserved; one that was held and is free was released.
fn arm_move(
    line: &Line,
    b: BoxId,
    x: Arm,
    was: Option<TrainId>,
    now: Option<TrainId>,
) -> Option<Move>
    ensures { result ≡ arm_move line.now b x.0 was now }
{
    match (was, now) {
        (None, Some(t)) => Some(Move::Reserve {
            t,
            s: segment_at(line, b, x),
            b,
        }),
        (Some(t), None) => Some(Move::Release {
            t,
            s: segment_at(line, b, x),
            b,
        }),
        (None, None) | (Some(_), Some(_)) => None,
    }
}

/// The move at the first arm that has changed.
fn resv_move(line: &Line, b: BoxId, was: &ResvWord, now: &ResvWord) -> Option<Move>
    ensures { result ≡ resv_move line.now b was.now now.now }
{
    if let Some(m) = arm_move(line, b, Arm(0), was.arm0, now.arm0) {
        return Some(m);
    }
    if let Some(m) = arm_move(line, b, Arm(1), was.arm1, now.arm1) {
        return Some(m);
    }
    if let Some(m) = arm_move(line, b, Arm(2), was.arm2, now.arm2) {
        return Some(m);
    }
    arm_move(line, b, Arm(3), was.arm3, now.arm3)
}

fn lock_on(line: &Line, b: BoxId, path: &Path) -> Option<Move>
    ensures { result ≡ lock_on line.now b path.now }
{
    Some(Move::Lock {
        t: path.train,
        b,
        s: segment_at(line, b, path.x),
        s2: segment_at(line, b, path.y),
    })
}

/// A box that was free and has a lock was locked, and the other way round; points are thrown and settle.
fn lock_move(line: &Line, b: BoxId, was: &LockWord, now: &LockWord) -> Option<Move>
    ensures { result ≡ lock_move line.now b was.now now.now }
{
    match (*was, *now) {
        (LockWord::Free(_), LockWord::Locked(path)) => lock_on(line, b, &path),
        (LockWord::Free(_), LockWord::Asked(path)) => lock_on(line, b, &path),
        (LockWord::Asked(_), LockWord::Moving(_)) => Some(Move::Throw { b }),
        (LockWord::Moving(path), LockWord::Moved(_)) => {
            match side_of(kind_of(line, b), path.x, path.y) {
                Some(side) => Some(Move::Settle { b, side }),
                None => None,
            }
        }
        (LockWord::Locked(path), LockWord::Free(_)) => Some(Move::Unlock { t: path.train, b }),
        _ => None,
    }
}

/// A No to a reservation is a Refuse, one to a lock a Bar.
fn denial(line: &Line, t: TrainId, letter: &Letter, u: TrainId) -> Option<Move>
    ensures { result ≡ denial line.now t letter.now u letter.now.verb }
{
    match letter.verb {
        Verb::Reserve => Some(Move::Refuse {
            t,
            s: segment_at(line, letter.to, letter.x),
            b: letter.to,
            u,
        }),
        Verb::Lock => Some(Move::Bar { t, b: letter.to, u }),
        Verb::Release | Verb::Unlock => None,
    }
}

fn mail_move(line: &Line, t: TrainId, was: &MailWord, now: &MailWord) -> Option<Move>
    ensures { result ≡ mail_move line.now t was.now now.now }
{
    match (*was, *now) {
        (MailWord::Taken(letter), MailWord::No(_, u)) => denial(line, t, &letter, u),
        _ => None,
    }
}

/// A train that was to go and is across entered; one that was across and is clear left its segment.
fn run_move(line: &Line, t: TrainId, was: &RunWord, now: &RunWord) -> Option<Move>
    ensures { result ≡ run_move line.now t was.now now.now }
{
    match (*was, *now) {
        (RunWord::Go(k), RunWord::Across(_)) => {
            let row = row_of(line, t, k)?;
            Some(Move::Enter {
                t,
                b: row.b,
                s: row.s,
                s2: row.s2,
            })
        }
        (RunWord::Across(k), RunWord::Clear(_)) => {
            let row = row_of(line, t, k)?;
            Some(Move::Leave { t, s: row.s })
        }
        _ => None,
    }
}

/// The move that the event is on the railway, by what its word said before and says after it; None for a step that
/// is none there: a letter that is asked, taken, granted or heard, points that have been seen to stand, a sensor.
/// The segments are numbered as in the tables.
#[inline(never)]
pub fn move_of(line: &Line, e: &Event) -> Option<Move>
    requires { e.now.word.0 < word_count (layout_of line.now) }
    ensures { result ≡ move_of line.now e.entry.now }
{
    // The kind of the word, for the proof.
    numbered();
    let was = payload_of(e.was);
    let now = payload_of(e.now);
    match line.layout().word_kind(e.word) {
        WordKind::Resv(b) => resv_move(line, b, &ResvWord::unpack(was)?, &ResvWord::unpack(now)?),
        WordKind::Lock(b) => lock_move(line, b, &LockWord::unpack(was)?, &LockWord::unpack(now)?),
        WordKind::Mail(t) => mail_move(line, t, &MailWord::unpack(was)?, &MailWord::unpack(now)?),
        WordKind::Run(t) => run_move(line, t, &RunWord::unpack(was)?, &RunWord::unpack(now)?),
        WordKind::Still | WordKind::Sense(_) => None,
    }
}
