ghost use Rattle.std.specs.Prelude.{◌≡◌, ◌≤◌, [], ℕ, Some, IfOk, length, slice_get};
ghost use Rattle.rl_model.specs.declared.moves.Move.{Move};
ghost use Rattle.rl_model.specs.Moves.{IsMoveOf};
ghost use Rattle.rl_model.specs.Reports.{IsReportOf};
ghost use Rattle.rl_report.specs.Grammar.{most_moves};
ghost use Rattle.rl_audit.specs.Judging.{HasJudged, HasJudgedTrains};
ghost use Rattle.rl_audit.specs.Verdicts.{IsVerdict};

use crate::judge::Judge;
use crate::verdict::Verdict;
use rl_base::{NoMemory, TrainId};
use rl_model::laws::safe_runs;
use rl_model::{Move, Report};
use rl_net::Network;
use std::alloc::Global;

/// Judges the moves, from the start of the network on.
fn judge_list(net: &Network, moves: &[Move], judge: &mut Judge)
    requires start { HasJudged net.now [] judge.old }
    requires of { (k : ℕ) (m : Move) → slice_get moves.now k ≡ Some m → IsMoveOf net.now m }
    requires few { length moves.now ≤ most_moves }
    ensures { HasJudged net.now moves.now judge.new }
{
    for m in moves {
        judge.take_move(net, *m);
    }
}

/// Judges the outcomes of the report, behind its moves.
fn judge_outcomes(net: &Network, report: &Report, judge: &mut Judge)
    requires of { IsReportOf net.now report.now }
    requires few { length report.now.moves ≤ most_moves }
    requires moves { HasJudged net.now report.now.moves judge.old }
    ensures { HasJudgedTrains net.now report.now judge.new }
{
    for k in 0..net.trains() {
        let o = *report.outcomes.at(k as usize);
        judge.take_outcome(net, report.tries, TrainId(k), o);
    }
}

/// The verdict on a report of the network that was read already: the one that `audit` gives of its text. Memory is
/// taken for the world and two numbers for each train.
pub fn judged(alloc: Global, net: &Network, report: &Report) -> Result<Verdict, NoMemory>
    requires of { IsReportOf net.now report.now }
    requires few { length report.now.moves ≤ most_moves }
    ensures { IfOk result (IsVerdict net.now report.now) }
{
    // The law of the moves, and what acceptance gave, for the proof.
    safe_runs();
    net.accepted();
    let mut judge = Judge::start(alloc, net)?;
    judge_list(net, report.moves.as_slice(), &mut judge);
    judge_outcomes(net, report, &mut judge);
    Ok(judge.verdict())
}
