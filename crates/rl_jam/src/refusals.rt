ghost use Rattle.std.specs.Prelude.{◌≡◌, ◌+◌, ◌≤◌, ◌∷◌, ◌++◌, [], ℕ, List, Some, IfOk, IsTrue, ◌↔◌, length, slice_get};
ghost use Rattle.rl_base.specs.declared.limits.TheConstants.{MAX_MOVES};
ghost use Rattle.rl_model.specs.declared.moves.Move.{Move};
ghost use Rattle.rl_model.specs.Moves.{IsMoveOf};
ghost use Rattle.rl_jam.specs.Jams.{IsSpent};
ghost use Rattle.rl_jam.specs.Finding.{AreLast, IsNoted, IsWaitOf};

use crate::waits::WaitRow;
use rl_base::{NoMemory, TrainId};
use rl_model::{Fate, Move, Report};
use rl_net::Network;
use std::alloc::Global;

/// The line of the first move.
const FIRST_MOVE: u32 = 3;

/// Keeps the move on that line as the last refusal of its train, if it is one.
fn note(last: &mut [Option<WaitRow>], m: Move, line: u32)
    requires { IsNoted (length last.old) m }
    ensures { (moves : List Move) → line ≡ length moves + 3 → AreLast moves last.old → AreLast (moves ++ m ∷ []) last.new }
{
    match m {
        Move::Refuse { t, u, .. } => last[t.0 as usize] = Some(WaitRow { t, u, line }),
        Move::Bar { t, u, .. } => last[t.0 as usize] = Some(WaitRow { t, u, line }),
        _ => {}
    }
}

/// Keeps the last refusal of each train, where no move was looked at before.
fn note_all(net: &Network, moves: &[Move], last: &mut [Option<WaitRow>])
    requires of { (k : ℕ) (m : Move) → slice_get moves.now k ≡ Some m → IsMoveOf net.now m }
    requires few { length moves.now ≤ MAX_MOVES }
    requires each { length last.old ≡ length net.now.trains }
    requires none { AreLast [] last.old }
    ensures { AreLast moves.now last.new }
{
    let _net = net;
    for (k, m) in moves.iter().enumerate() {
        note(last, *m, k as u32 + FIRST_MOVE);
    }
}

/// The last refusal of each train, in order, none for a train that was never refused.
pub(crate) fn last_refusals(
    alloc: Global,
    net: &Network,
    moves: &[Move],
) -> Result<Vec<Option<WaitRow>>, NoMemory>
    requires of { (k : ℕ) (m : Move) → slice_get moves.now k ≡ Some m → IsMoveOf net.now m }
    requires few { length moves.now ≤ MAX_MOVES }
    ensures each { IfOk result (λ last. length last.items ≡ length net.now.trains) }
    ensures last { IfOk result (λ last. AreLast moves.now last.items) }
{
    let mut last = vec![in alloc; None; net.trains() as usize]?;
    note_all(net, moves, last.as_mut_slice());
    Ok(last)
}

/// Whether the report says that the train is spent.
fn is_spent(report: &Report, t: TrainId) -> bool
    ensures { IsTrue result ↔ IsSpent report.now t.0 }
{
    let i = t.0 as usize;
    i < report.outcomes.len() && matches!(report.outcomes.at(i).fate, Fate::Spent)
}

/// By whom the train was last refused, and on which line, if it is spent.
pub(crate) fn wait_of(report: &Report, last: &[Option<WaitRow>], t: TrainId) -> Option<WaitRow>
    requires each { length last.now ≡ length report.now.outcomes }
    requires last { AreLast report.now.moves last.now }
    ensures { IsWaitOf report.now t.0 result }
{
    if (t.0 as usize) < last.len() && is_spent(report, t) {
        last[t.0 as usize]
    } else {
        None
    }
}
