ghost use Rattle.std.specs.Prelude.{◌≡◌, ◌+◌, ◌<◌, ◌≤◌, ◌^◌, [], ◌∷◌, ◌++◌};
ghost use Rattle.std.specs.Prelude.{ℕ, List, length, slice_get, slice_set, Some, IfOk};
ghost use Rattle.rl_base.specs.Layout.{node_count};
ghost use Rattle.rl_model.specs.declared.moves.Move.{Move};
ghost use Rattle.rl_record.specs.declared.event.Event.{Event};
ghost use Rattle.rl_tables.specs.Starts.{layout_of};
ghost use Rattle.rl_steps.specs.Run.{IsRun};
ghost use Rattle.rl_safety.specs.Moves.{moves_of};
ghost use Rattle.rl_safety.specs.Reading.{train_mind};
ghost use Rattle.rl_safety.specs.Reports.{fate_of, outcome_of, report_of};
ghost use Rattle.rl_core.specs.Reports.{AreMindsAfter, count_of, counts_of, outcomes_by, sum_of};
ghost use Rattle.rl_core.specs.declared.reports.Count.{Count};

use rl_base::{NoMemory, Sequence, TrainId};
use rl_model::{Fate, Move, Moves, Outcome, Outcomes, Report};
use rl_steps::Mind;
use rl_tables::Line;
use rl_train::TrainMind;
use std::alloc::Global;

/// How many steps a train made, and how many refusals it met.
#[derive(Clone, Copy, Debug, PartialEq, Eq)]
struct Count {
    made: u32,
    refused: u32,
}

/// The counts of so many trains before the first move.
fn no_counts(alloc: Global, trains: u32) -> Result<Vec<Count>, NoMemory>
    ensures { IfOk result (λ counts. counts.items ≡ counts_of [] trains) }
{
    let none = Count {
        made: 0,
        refused: 0,
    };
    Ok(vec![in alloc; none; trains as usize]?)
}

/// Adds to the count of a train, if it is one of these. Fewer than 2^32 are counted.
fn add(counts: &mut [Count], t: TrainId, more: Count)
    ensures there { (x : Count) → slice_get counts.old t.0 ≡ Some x
        → x.made + more.made < 2 ^ 32 → x.refused + more.refused < 2 ^ 32
        → counts.new ≡ slice_set counts.old t.0 (sum_of x more) }
    ensures absent { length counts.old ≤ t.0 → counts.new ≡ counts.old }
{
    let i = t.0 as usize;
    if i < counts.len() {
        let count = counts[i];
        counts[i] = Count {
            made: count.made.saturating_add(more.made),
            refused: count.refused.saturating_add(more.refused),
        };
    }
}

/// Counts a move for the train whose step or whose refusal it is.
fn count_move(counts: &mut [Count], m: Move)
    ensures { (moves : List Move) (trains : ℕ) → length moves + 1 < 2 ^ 32 → counts.old ≡ counts_of moves trains
        → counts.new ≡ counts_of (moves ++ m ∷ []) trains }
{
    let step = Count {
        made: 1,
        refused: 0,
    };
    let refusal = Count {
        made: 0,
        refused: 1,
    };
    match m {
        Move::Leave { t, .. } => add(counts, t, step),
        Move::Refuse { t, .. } | Move::Bar { t, .. } => add(counts, t, refusal),
        _ => {}
    }
}

/// What the moves count for each of so many trains.
fn counts_of(alloc: Global, moves: &[Move], trains: u32) -> Result<Vec<Count>, NoMemory>
    requires { length moves.now < 2 ^ 32 }
    ensures { IfOk result (λ counts. counts.items ≡ counts_of moves.now trains) }
{
    let mut counts = no_counts(alloc, trains)?;
    for m in moves {
        count_move(counts.as_mut_slice(), *m);
    }
    Ok(counts)
}

/// How a train with this mind stands: it has arrived or spent its attempts where it rests, and is under way else.
fn fate_of(line: &Line, t: TrainId, mind: &TrainMind) -> Fate
    requires { t.0 < length line.now.trains }
    ensures { result ≡ fate_of line.now t.0 mind.now }
{
    let table = line.train_table(t);
    if !mind.at_rest(table) {
        Fate::Underway
    } else if mind.step as usize == table.rows.len() {
        Fate::Arrived
    } else {
        Fate::Spent
    }
}

/// The mind as that of a train.
fn train_mind(mind: &Mind, tries: u32) -> TrainMind
    ensures { result ≡ train_mind tries mind.now }
{
    match mind {
        Mind::Train(mind) => *mind,
        Mind::Track(_) | Mind::Box(_) | Mind::Machine(_) => TrainMind::start(tries),
    }
}

/// The outcome of a train, by its count and its mind.
fn outcome_of(line: &Line, t: TrainId, count: Count, mind: &TrainMind) -> Outcome
    requires { t.0 < length line.now.trains }
    ensures { (moves : List Move) → count ≡ count_of moves t.0 → result ≡ outcome_of line.now moves t.0 mind.now }
{
    Outcome {
        fate: fate_of(line, t, mind),
        made: count.made,
        refused: count.refused,
    }
}

/// The outcomes of all trains, by the moves and by the minds of their nodes, which come first.
fn outcomes_of(
    alloc: Global,
    line: &Line,
    tries: u32,
    moves: &[Move],
    minds: &[Mind],
) -> Result<Outcomes, NoMemory>
    requires few { length moves.now < 2 ^ 32 }
    requires minds { length line.now.trains ≤ length minds.now }
    ensures { IfOk result (λ outcomes. outcomes
        ≡ outcomes_by line.now tries moves.now minds.now (length line.now.trains)) }
{
    let trains = line.layout().trains;
    let counts = counts_of(alloc, moves, trains)?;
    let mut outcomes = Sequence::new(alloc);
    for t in 0..trains {
        let i = t as usize;
        let mind = train_mind(&minds[i], tries);
        outcomes.push(outcome_of(line, TrainId(t), counts[i], &mind))?;
    }
    Ok(outcomes)
}

/// The report of a run, by its moves and by the minds that it leaves the nodes. The moves are counted in one pass.
pub fn report_of(
    alloc: Global,
    line: &Line,
    tries: u32,
    moves: Moves,
    minds: &[Mind],
) -> Result<Report, NoMemory>
    requires few { length moves < 2 ^ 32 }
    requires minds { length minds.now ≡ node_count (layout_of line.now) }
    ensures { (events : List Event) → IsRun line.now tries events → moves ≡ moves_of line.now events
        → AreMindsAfter line.now tries events minds.now → IfOk result (λ r. r ≡ report_of line.now tries events) }
{
    let outcomes = outcomes_of(alloc, line, tries, moves.as_slice(), minds)?;
    Ok(Report {
        tries,
        moves,
        outcomes,
    })
}
