ghost use Rattle.std.specs.Prelude.{◌≡◌, ◌≤◌, [], ℕ, List, length, OnOk, IfOk, IfErr};
ghost use Rattle.rl_model.specs.declared.moves.Move.{Move};
ghost use Rattle.rl_model.specs.declared.report.Report.{Report};
ghost use Rattle.rl_domain.specs.Rows.{Fits};
ghost use Rattle.rl_report.specs.Answers.{IsFault, TooMany};
ghost use Rattle.rl_report.specs.Grammar.{IsTextOf, most_moves};
ghost use Rattle.rl_report.specs.Reading.{HasNoMove, HasRead};
ghost use Rattle.rl_audit.specs.Judging.{HasJudged, JudgedMoves, JudgedTrains};
ghost use Rattle.rl_audit.specs.Verdicts.{IsVerdict, IsVerdictOn, AuditsAs, IsAnswer};
ghost use Rattle.rl_audit.specs.declared.verdict.Verdict.{Verdict};

use crate::judge::Judge;
use crate::laws::one_verdict;
use crate::verdict::Verdict;
use rl_base::TrainId;
use rl_base::limits::{MAX_MOVES, MAX_REPORT_BYTES};
use rl_model::laws::safe_runs;
use rl_net::Network;
use rl_report::laws::{one_reading, reading_laws};
use rl_report::{ReportLines, ReportRefusal};
use std::alloc::Global;

/// Reads and judges the lines of the moves, to the first that is none.
fn judge_moves(
    net: &Network,
    lines: &mut ReportLines<'_>,
    judge: &mut Judge,
) -> Result<(), ReportRefusal>
    requires { HasJudged net.now [] judge.old }
    ensures ok { OnOk result (JudgedMoves net.now lines.old lines.new judge.new) }
    ensures none { OnOk result (HasNoMove net.now lines.new.left) }
    ensures err { IfErr result (TooMany net.now lines.old) }
{
    // The laws of reading, for the proof.
    reading_laws();
    while let Some(m) = lines.next_move(net) {
        if judge.moves == MAX_MOVES as u32 {
            return Err(ReportRefusal::Long);
        }
        judge.take_move(net, m);
    }
    Ok(())
}

/// Reads and judges the lines of the trains.
fn judge_trains(
    net: &Network,
    tries: u32,
    lines: &mut ReportLines<'_>,
    judge: &mut Judge,
) -> Result<(), ReportRefusal>
    requires fits { Fits net.now judge.old.world }
    requires trains { length judge.old.counts.items ≡ length net.now.trains }
    requires few { judge.old.moves ≤ most_moves }
    ensures ok { OnOk result
        (JudgedTrains net.now tries (length net.now.trains) lines.old lines.new judge.old judge.new) }
    ensures err { IfErr result (λ e. (text : List ℕ) (report : Report)
        → HasRead net.now text report lines.old → report.outcomes ≡ [] → HasNoMove net.now lines.old.left
        → IsFault net.now text e) }
{
    for k in 0..net.trains() {
        let t = TrainId(k);
        match lines.next_outcome(net, t) {
            Ok(o) => judge.take_outcome(net, tries, t, o),
            Err(n) => return Err(ReportRefusal::Line(n)),
        }
    }
    Ok(())
}

/// Reads and judges what follows the moves.
fn judge_rest(
    net: &Network,
    tries: u32,
    lines: &mut ReportLines<'_>,
    judge: &mut Judge,
) -> Result<Verdict, ReportRefusal>
    requires fits { Fits net.now judge.old.world }
    requires trains { length judge.old.counts.items ≡ length net.now.trains }
    requires few { judge.old.moves ≤ most_moves }
    ensures ok { IfOk result (λ verdict. (text : List ℕ) (moves : List Move)
        → HasRead net.now text (record { tries = tries; moves = moves; outcomes = [] }) lines.old
        → HasJudged net.now moves judge.old
        → IsVerdictOn net.now text verdict) }
    ensures err { IfErr result (λ e. (text : List ℕ) (moves : List Move)
        → HasRead net.now text (record { tries = tries; moves = moves; outcomes = [] }) lines.old
        → HasNoMove net.now lines.old.left
        → IsFault net.now text e) }
{
    // The law of the moves, and what acceptance gave, for the proof.
    safe_runs();
    net.accepted();
    judge_trains(net, tries, lines, judge)?;
    match lines.end(net) {
        Ok(()) => Ok(judge.verdict()),
        Err(n) => Err(ReportRefusal::Line(n)),
    }
}

fn audit_text(alloc: Global, net: &Network, text: &[u8]) -> Result<Verdict, ReportRefusal>
    ensures { AuditsAs net.now text.now result }
{
    // The laws of reading, and what acceptance gave, for the proof.
    reading_laws();
    net.accepted();
    if text.len() > MAX_REPORT_BYTES {
        return Err(ReportRefusal::Long);
    }
    let mut judge = Judge::start(alloc, net)?;
    let mut lines = ReportLines::new(text);
    let head = lines.head();
    judge_moves(net, &mut lines, &mut judge)?;
    match head {
        Ok(tries) => judge_rest(net, tries, &mut lines, &mut judge),
        Err(n) => Err(ReportRefusal::Line(n)),
    }
}

/// Whether the text is that of a report of the network in which every guard holds, from the start to the last
/// outcome, and else the first line at which one fails, and its number. A text that is no report is refused
/// as `read_report` refuses it.
///
/// The text is read once. Memory is taken for the world and two numbers for each train, before the first line.
pub fn audit(alloc: Global, net: &Network, text: &[u8]) -> Result<Verdict, ReportRefusal>
    ensures audits { AuditsAs net.now text.now result }
    ensures complete { (report : Report) (verdict : Verdict)
        → IsTextOf net.now report text.now → length report.moves ≤ most_moves → IsVerdict net.now report verdict
        → IsAnswer verdict result }
{
    // The laws that a text has one reading and a report one verdict, and what acceptance gave, for the proof.
    one_reading();
    one_verdict();
    net.accepted();
    audit_text(alloc, net, text)
}
